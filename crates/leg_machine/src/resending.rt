//! Retransmissions ("Message Transport").
ghost use Rattle.std.specs.Prelude.{◌≡◌, ◌+◌, ◌<◌, ◌≤◌, ◌++◌, [], true, length, map};
ghost use Rattle.iax_frames.specs.FullFrame.{spelling};
ghost use Rattle.seq_window.specs.Window.{after_hastening, held_count, held_frames};
ghost use Rattle.leg_machine.specs.Replies as replies;
ghost use Rattle.leg_machine.specs.Steps as steps;
ghost use Rattle.leg_machine.specs.Tries as tries;
ghost use Rattle.leg_machine.specs.Working as working;

use crate::machine::{AnsweredVnak, Machine};
use call_signals::{Heard, Judged, Replies};
use seq_window::Resent;

// Returns whether a VNAK repeats the one that was answered last: it asks for the same number, within `within` milliseconds.
fn is_repetition(last: Option<AnsweredVnak>, number: u8, now: u64, within: u64) -> bool
    ensures { result ≡ working.is_repetition last number now within }
{
    match last {
        Some(last) => last.number == number && now.saturating_sub(last.at) < within,
        None => false,
    }
}

// Returns whether the last VNAK that brought all held frames came less than `within` milliseconds ago.
fn is_soon(last: Option<AnsweredVnak>, now: u64, within: u64) -> bool
    ensures { result ≡ working.is_soon last now within }
{
    match last {
        Some(last) => now.saturating_sub(last.all_at) < within,
        None => false,
    }
}

// Returns the moment of the last VNAK that brought all held frames, once one has come at `now` that brings only the two
// oldest, or all.
fn all_after(brings_oldest: bool, last: Option<AnsweredVnak>, now: u64) -> u64
    ensures { result ≡ working.all_after brings_oldest last now }
{
    match last {
        Some(last) if brings_oldest => last.all_at,
        _ => now,
    }
}

impl Machine {
    ghost use Rattle.leg_machine.specs.Leg.{leg_of, whole_leg, with_window, capacity_of, HasRoom};

    // Writes the held frames as they are retransmitted, oldest first.
    fn held_again(&self, outs: &mut Replies)
        requires { outs.old ≡ [] }
        ensures { outs.new ≡
            map (λ held. spelling (replies.sent_again (leg_of self.now) held)) (held_frames self.now.window.state) }
    {
        for place in 0..self.window.held_len() {
            let held = self.window.held_frame(place);
            self.spell(true, held.number, held.frame, outs);
        }
    }

    // Retransmits the held frame at a place.
    fn again(&self, place: usize, outs: &mut Replies)
        requires held { place < held_count self.now.window.state }
        requires more { length outs.old < 128 }
        ensures replies { outs.new ≡ outs.old ++ map spelling (tries.frames_again (leg_of self.now) place) }
        ensures one { length outs.new ≡ length outs.old + 1 }
    {
        let held = self.window.held_frame(place);
        self.spell(true, held.number, held.frame, outs);
    }

    /// Retransmits the held frames that are due at the moment `now`, in milliseconds, and counts each, in at most `turns`
    /// turns ("Message Transport"). Returns whether one was spent. The list has at most 127 datagrams then.
    pub fn try_again(&mut self, turns: usize, now: u64, outs: &mut Replies) -> bool
        requires { length outs.old + turns ≤ 127 }
        ensures leg { leg_of self.new ≡ (tries.tries turns (leg_of self.old) now).leg }
        ensures replies { outs.new ≡ outs.old ++ map spelling (tries.tries turns (leg_of self.old) now).replies }
        ensures spent { result ≡ (tries.tries turns (leg_of self.old) now).spent }
        ensures few { length outs.new ≤ 127 }
        ensures room { HasRoom 1 self.old → HasRoom 1 self.new }
        ensures capacity { capacity_of (whole_leg self.old) ≤ capacity_of (whole_leg self.new) }
    {
        for turn in 0..turns {
            match self
                .window
                .resend(now, self.rules.retry_ms, self.rules.max_retries)
            {
                Resent::Nothing => return false,
                Resent::Spent => return true,
                Resent::Again(place) => {
                    self.resent = self.resent.wrapping_add(1);
                    self.again(place, outs);
                }
            }
        }
        false
    }

    // Retransmits all held frames at the moment `now`, in milliseconds, the oldest first, and counts them. That is no try.
    fn resend(&mut self, now: u64, outs: &mut Replies) -> Heard
        requires { outs.old ≡ [] }
        ensures leg { leg_of self.new ≡ (steps.resend_step (leg_of self.old) now).leg }
        ensures replies { outs.new ≡ map spelling (steps.resend_step (leg_of self.old) now).replies }
        ensures heard { result ≡ steps.heard_of (steps.resend_step (leg_of self.old) now) }
        ensures capacity { capacity_of (whole_leg self.old) ≤ capacity_of (whole_leg self.new) }
    {
        self.held_again(outs);
        self.resent = self.resent.wrapping_add(self.window.held_len() as u64);
        self.window.touch_all(now);
        Heard {
            judged: Judged::Unnumbered,
            signal: None,
        }
    }

    // Writes the held frame at a place, if there is one, as it is retransmitted, behind fewer than 128 others.
    fn again_if(&self, place: usize, outs: &mut Replies)
        requires { length outs.old < 127 }
        ensures replies { outs.new ≡ outs.old ++ map spelling (tries.frames_again (leg_of self.now) place) }
        ensures one { length outs.new ≤ length outs.old + 1 }
    {
        if place < self.window.held_len() {
            self.again(place, outs);
        }
    }

    // Marks the held frame at a place, if there is one, as retransmitted at the moment `moment`, in milliseconds, with one try
    // fewer.
    fn hasten_if(&mut self, place: usize, moment: u64)
        ensures leg { leg_of self.new ≡ with_window (leg_of self.old) (after_hastening self.old.window.state place moment) }
        ensures capacity { capacity_of (whole_leg self.old) ≤ capacity_of (whole_leg self.new) }
    {
        if place < self.window.held_len() {
            self.window.hasten(place, moment);
        }
    }

    // Returns the moment, in milliseconds, for frames that are due again 100 milliseconds after the last VNAK that brought
    // all. They are due no sooner than any if the plan allows no tries, because they would be spent.
    fn hastening(&self, now: u64) -> u64
        ensures { result ≡ working.hastening (leg_of self.now) now }
    {
        if self.rules.max_retries == 0 {
            return now;
        }
        let since = match self.vnak_answered {
            Some(last) => now.saturating_sub(last.all_at),
            None => 100,
        };
        let wait = 100u64.saturating_sub(since);
        now.saturating_sub(self.rules.retry_ms.saturating_sub(wait))
    }

    // Retransmits only the two oldest held frames at the moment `now`, in milliseconds, and counts them. That is no try.
    // They are due again 100 milliseconds after the last VNAK that brought all.
    fn resend_oldest(&mut self, now: u64, outs: &mut Replies) -> Heard
        requires { outs.old ≡ [] }
        ensures leg { leg_of self.new ≡ (steps.oldest_step (leg_of self.old) now).leg }
        ensures replies { outs.new ≡ map spelling (steps.oldest_step (leg_of self.old) now).replies }
        ensures heard { result ≡ steps.heard_of (steps.oldest_step (leg_of self.old) now) }
        ensures capacity { capacity_of (whole_leg self.old) ≤ capacity_of (whole_leg self.new) }
    {
        self.again_if(0, outs);
        self.again_if(1, outs);
        self.resent = self
            .resent
            .wrapping_add(self.window.held_len().min(2) as u64);
        let moment = self.hastening(now);
        self.hasten_if(0, moment);
        self.hasten_if(1, moment);
        Heard {
            judged: Judged::Unnumbered,
            signal: None,
        }
    }

    // Returns whether a VNAK for this number, at the moment `now`, in milliseconds, brings nothing: a hardened leg has just
    // answered the same one. Otherwise each repeat of 12 forged octets would bring a frame of up to 1,400.
    fn brings_nothing(&self, number: u8, now: u64) -> bool
        ensures { result ≡ working.brings_nothing (leg_of self.now) number now }
    {
        let bound = self.rules.retry_ms.min(10);
        let repeats = is_repetition(self.vnak_answered, number, now, bound);
        self.rules.is_hardened && repeats
    }

    // Returns whether a VNAK at the moment `now`, in milliseconds, brings only the two oldest held frames: a hardened leg
    // has just sent all again. Otherwise forged VNAKs whose number moves would bring all held frames each.
    fn brings_oldest(&self, now: u64) -> bool
        ensures { result ≡ working.brings_oldest (leg_of self.now) now }
    {
        self.rules.is_hardened && is_soon(self.vnak_answered, now, 100)
    }

    /// Answers a VNAK whose acknowledgement counts, and which asks for this number, at the moment `now`, in milliseconds.
    /// All held frames are retransmitted, the oldest first, or only the two oldest, and are counted. That is no try. On a
    /// hardened leg one that repeats changes nothing. The list is empty before.
    pub fn answer_vnak(&mut self, number: u8, now: u64, outs: &mut Replies) -> Heard
        requires { outs.old ≡ [] }
        ensures leg { leg_of self.new ≡ (steps.answer_step (leg_of self.old) number now).leg }
        ensures replies { outs.new ≡ map spelling (steps.answer_step (leg_of self.old) number now).replies }
        ensures heard { result ≡ steps.heard_of (steps.answer_step (leg_of self.old) number now) }
        ensures capacity { capacity_of (whole_leg self.old) ≤ capacity_of (whole_leg self.new) }
    {
        if self.brings_nothing(number, now) {
            return Heard {
                judged: Judged::Unnumbered,
                signal: None,
            };
        }
        let brings_oldest = self.brings_oldest(now);
        self.vnak_answered = Some(AnsweredVnak {
            number,
            at: now,
            all_at: all_after(brings_oldest, self.vnak_answered, now),
        });
        if brings_oldest {
            self.resend_oldest(now, outs)
        } else {
            self.resend(now, outs)
        }
    }
}
