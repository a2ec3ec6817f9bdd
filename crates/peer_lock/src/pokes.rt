//! The POKEs by which the exchange asks whether a peer is there, and their PONGs (RFC 5456, sections 6.7.1, "POKE Request
//! Message",
//! and 6.7.3, "PONG Response Message").
ghost use Rattle.std.specs.Prelude.{◌≡◌, ◌≤◌};
ghost use Rattle.peer_lock.specs.Pokes as pokes;

use call_signals::codes::{FRAME_IAX, IAX_POKE};
use iax_frames::{CallNumber, Full, FullHead};
use leg_machine::{Message, PeerRules};

/// The call number of full frames of the exchange that belong to no call. It is no local number of a plan.
pub(crate) const NO_CALL: u16 = 0x7fff;

/// The state of the exchange's POKEs to one peer. Moments are in milliseconds.
///
/// A POKE goes out every `qualify_ms`. One that isn't answered is repeated `max_retries` times, `retry_ms` apart: a run.
#[derive(Clone, Copy, Debug, PartialEq, Eq)]
pub struct Pokes {
    /// The moment of the last POKE; `None` before the first.
    pub last: Option<u64>,
    /// The number of POKEs of the present run, 0 ..= `max_retries` + 1; 0 if a PONG answered it.
    pub unanswered: u32,
    /// The moment of the first POKE of the present run, or of the last one; 0 before the first.
    pub since: u64,
    /// The moment of the first POKE of the last run that ended without an answer; `None` if there was none since the last PONG.
    pub silent: Option<u64>,
    /// Milliseconds from the last POKE that was answered to its PONG; `None` before the first PONG.
    pub round_trip: Option<u64>,
}

impl Pokes {
    pub(crate) fn none() -> Pokes
        ensures { result ≡ pokes.no_pokes }
    {
        Pokes {
            last: None,
            unanswered: 0,
            since: 0,
            silent: None,
            round_trip: None,
        }
    }

    // Returns whether the next POKE is one more of the present run.
    fn is_repeated(&self, rules: &PeerRules) -> bool
        ensures { result ≡ pokes.is_repeated rules.now self.now }
    {
        1 <= self.unanswered && self.unanswered <= rules.max_retries
    }

    // Returns how long after the last POKE the next one is due.
    fn wait(&self, rules: &PeerRules) -> u64
        ensures { result ≡ pokes.poke_wait rules.now self.now }
    {
        if self.is_repeated(rules) {
            rules.retry_ms
        } else {
            rules.qualify_ms
        }
    }

    /// Whether a POKE is due at the moment `now`.
    pub(crate) fn is_due(&self, rules: &PeerRules, now: u64) -> bool
        ensures { result ≡ pokes.is_poke_due rules.now self.now now }
    {
        if rules.qualify_ms == 0 {
            return false;
        }
        self.has_waited(self.wait(rules), now)
    }

    // Returns whether the last POKE, if there is one, is `wait` milliseconds old at the moment `now`.
    fn has_waited(&self, wait: u64, now: u64) -> bool
        ensures { result ≡ pokes.has_waited self.now.last wait now }
    {
        match self.last {
            None => true,
            Some(last) => wait <= now.saturating_sub(last),
        }
    }

    /// Returns the moment of the first POKE of the last run without an answer: `max_retries` + 1 POKEs, and `retry_ms` have
    /// passed since
    /// the last, or the next run began. `None` if there was no such run since the last PONG that counted.
    pub fn unanswered_since(&self, rules: &PeerRules, now: u64) -> Option<u64>
        ensures { result ≡ pokes.unanswered_since rules.now self.now now }
    {
        if self.unanswered > rules.max_retries && self.has_waited(rules.retry_ms, now) {
            Some(self.since)
        } else {
            self.silent
        }
    }

    // Returns the moment at which the last run without an answer began, once the next run begins.
    fn silent_then(&self, rules: &PeerRules) -> Option<u64>
        ensures { result ≡ pokes.silent_then rules.now self.now }
    {
        if self.unanswered <= rules.max_retries {
            self.silent
        } else {
            Some(self.since)
        }
    }

    /// Returns the state after a POKE at the moment `now`.
    pub(crate) fn poked(&self, rules: &PeerRules, now: u64) -> Pokes
        requires { rules.now.max_retries ≤ 20 }
        ensures { result ≡ pokes.poked rules.now self.now now }
    {
        if self.is_repeated(rules) {
            return Pokes {
                last: Some(now),
                unanswered: self.unanswered + 1,
                since: self.since,
                silent: self.silent,
                round_trip: self.round_trip,
            };
        }
        Pokes {
            last: Some(now),
            unanswered: 1,
            since: now,
            silent: self.silent_then(rules),
            round_trip: self.round_trip,
        }
    }

    /// Whether a frame answers the last POKE, which has no answer yet: it has its timestamp.
    pub(crate) fn is_answer(&self, rules: &PeerRules, frame: &Full) -> bool
        ensures { result ≡ pokes.answers_poke rules.now self.now frame.now.head }
    {
        match self.last {
            Some(last) => 1 <= self.unanswered && poke_stamp(rules, last) == frame.timestamp(),
            None => false,
        }
    }

    /// The state after the PONG at the moment `now`.
    pub(crate) fn answered(&self, now: u64) -> Pokes
        ensures { result ≡ pokes.answered self.now now }
    {
        Pokes {
            last: self.last,
            unanswered: 0,
            since: self.since,
            silent: None,
            round_trip: match self.last {
                Some(last) => Some(now.saturating_sub(last)),
                None => None,
            },
        }
    }
}

// Returns the timestamp of a POKE at the moment `now`: the moment and the drawn offset, modulo 2^32.
pub(crate) fn poke_stamp(rules: &PeerRules, now: u64) -> u32
    ensures { result ≡ pokes.poke_stamp rules.now now }
{
    ((now % 0x1_0000_0000) as u32).wrapping_add(rules.poke_offset)
}

/// The head of a POKE with a timestamp.
pub(crate) fn poke_head(timestamp: u32) -> FullHead
    ensures { result ≡ pokes.poke_head timestamp }
{
    FullHead {
        source: CallNumber::new(NO_CALL),
        retransmitted: false,
        destination: CallNumber::new(0),
        timestamp,
        oseqno: 0,
        iseqno: 0,
        frame_type: FRAME_IAX,
        subclass: IAX_POKE,
    }
}

fn is_pong(message: &Message) -> bool
    ensures { result ≡ pokes.is_pong message.now }
{
    matches!(message, Message::Pong)
}

/// Whether a frame is a PONG to the call number that POKEs have. In plan format 4 it is never answered.
pub(crate) fn is_own_pong(rules: &PeerRules, frame: &Full) -> bool
    ensures { result ≡ pokes.is_own_pong rules.now frame.now.head }
{
    frame.destination().get() == NO_CALL && rules.is_hardened && is_pong(&Message::of(frame))
}
