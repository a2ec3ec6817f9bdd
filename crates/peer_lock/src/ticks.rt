//! The ticks of a peer ("Message Transport", "Meta Frames").
ghost use Rattle.std.specs.Prelude.{◌≡◌, ◌+◌, ◌^◌, ◌<◌, ◌≤◌, [], length, Option, Some, slice_get, slice_set};
ghost use Rattle.std.specs.Prelude.{IfSome, IfNone};
ghost use Rattle.peer_legs.specs.Legs.{NamedLeg as NamedLegValue};
ghost use Rattle.outbox.specs.Outbox.{put};
ghost use Rattle.peer_lock.specs.Ticks.{asked, place_tick, flushed_ahead, TicksLegs, PacksOne, IsPacked, PacksMedia, PacksDue};
ghost use Rattle.peer_lock.specs.Ticks.{Packs, WasTicked};
ghost use Rattle.trunk_packer.specs.Queue.{media_octets};

use crate::errors::StepsSpent;
use crate::outboxes::{flush_if, is_ahead_at_tick, put_all};
use crate::pokes::{poke_head, poke_stamp};
use crate::state::PeerState;
use crate::steps::TickReport;
use iax_frames::write_full;
use peer_accounts::{LedgerSet, Pass};

impl<J: LedgerSet> PeerState<J> {
    // Sends a POKE, if one is due.
    #[tactic(auto, using(outbox::proofs::Puts::put_none))]
    fn poke_if_due(&mut self, now: u64)
        ensures { self.new ≡ asked self.old now }
    {
        // For the proof: at most 256 datagrams wait.
        let _ = self.outbox.is_full();
        if !self.pokes.is_due(&self.rules, now) {
            return;
        }
        match write_full(&poke_head(poke_stamp(&self.rules, now)), &[]) {
            Ok(out) => self.outbox.put(&out),
            Err(_) => unreachable!(),
        }
        self.pokes = self.pokes.poked(&self.rules, now);
    }

    // Ticks the leg at a place, if there is one. Returns the number of frames without memory.
    #[tactic(auto, using(crate::proofs::Ticking::place_same, outbox::proofs::Puts::put_none))]
    fn tick_place(&mut self, index: usize, now: u64) -> u32
        requires { index < length self.old.legs.places }
        ensures peer { (place : Option NamedLegValue) → slice_get self.old.legs.places index ≡ Some place
            → self.new ≡ record (flushed_ahead self.old (place_tick result place now).datagrams) {
              legs = record self.old.legs { places = slice_set self.old.legs.places index (place_tick result place now).place };
              outbox = put (flushed_ahead self.old (place_tick result place now).datagrams).outbox
                  (place_tick result place now).datagrams;
            } }
        ensures skipped { (place : Option NamedLegValue) → slice_get self.old.legs.places index ≡ Some place →
            result ≡ (place_tick result place now).skipped }
        ensures few { result ≤ 2 }
    {
        // For the proof: at most 256 datagrams wait.
        let _ = self.outbox.is_full();
        self.replies.clear();
        let skipped = self.legs.tick(index, now, &mut self.replies);
        let goes = is_ahead_at_tick(&self.rules, &self.replies);
        flush_if(
            goes,
            self.rules.trunk_timestamps,
            self.since,
            &mut self.outbox,
            &mut self.queue,
            &mut self.account,
        );
        put_all(&mut self.outbox, &self.replies);
        skipped
    }

    // Returns the number of places for legs.
    fn place_count(&self) -> usize
        ensures count { result ≡ length self.now.legs.places }
        ensures few { result ≤ 2 ^ 15 }
        ensures outbox { length self.now.outbox.waiting ≤ 256 }
    {
        // For the proof: at most 256 datagrams wait.
        let _ = self.outbox.is_full();
        self.legs.count()
    }

    // Ticks the legs, by ascending number. Returns the number of frames without memory.
    fn tick_legs(&mut self, now: u64) -> u32
        ensures { TicksLegs self.old now result self.new }
    {
        // For the proof: the tick of legs that rest changes nothing.
        crate::laws::resting_legs_stay();
        let count = self.place_count();
        if self.legs.are_resting(now) {
            return 0;
        }
        let mut skipped = 0;
        for index in 0..count {
            skipped += self.tick_place(index, now);
        }
        self.legs.refresh_idle();
        skipped
    }

    // Sends one trunk frame if something is queued and the outbox has room. Returns its octets of media.
    fn pack_one(&mut self, now: u64) -> Option<u64>
        ensures some { IfSome result (λ octets. PacksOne self.old now octets self.new) }
        ensures none { IfNone result (IsPacked self.old) }
        ensures same { IfNone result (self.new ≡ self.old) }
    {
        if self.outbox.is_full() {
            return None;
        }
        let (out, octets) = self.queue.pack(now, self.rules.trunk_timestamps)?;
        self.outbox.put(&out);
        self.account.pack(octets);
        Some(octets)
    }

    // Returns the octets of media that wait for a trunk frame.
    fn waiting(&self) -> u64
        ensures octets { result ≡ media_octets self.now.queue }
        ensures queued { self.now.accounts.queued ≡ media_octets self.now.queue }
        ensures few { result ≤ 16384 }
    {
        // For the proof: the queue has at most 16,384 octets of media.
        let _ = &self.queue;
        self.queue.queued().1
    }

    // Packs the trunk queue while the outbox has room. Returns the octets of media.
    fn pack(&mut self, now: u64) -> u64
        ensures { PacksMedia self.old now result self.new }
    {
        // For the proof: the octets that wait fit their type.
        let _waiting = self.waiting();
        let mut packed = 0;
        while let Some(octets) = self.pack_one(now) {
            packed += octets;
        }
        packed
    }

    // Sends the whole queue if its oldest entry is `wait` milliseconds old and the outbox has room. Returns the octets of
    // media.
    fn pack_due(&mut self, now: u64, wait: u64) -> u64
        requires { self.old.rules.trunk_ms ≡ Some wait }
        ensures { PacksDue self.old now result self.new }
    {
        let waiting = self.waiting();
        let goes = now.saturating_sub(self.since) >= wait && !self.outbox.is_full();
        self.flush(goes);
        if goes { waiting } else { 0 }
    }

    // Packs the trunk queue at a tick. Returns the octets of media.
    fn pack_at_tick(&mut self, now: u64) -> u64
        ensures packs { Packs self.old.rules.trunk_ms self.old now result self.new }
        ensures packed { self.new.accounts.packed ≡ self.old.accounts.packed + result }
        ensures legs { self.new.legs ≡ self.old.legs }
    {
        match self.rules.trunk_ms {
            None => self.pack(now),
            Some(wait) => self.pack_due(now, wait),
        }
    }

    // Returns the octets of media that were written into frames.
    fn packed(&self) -> u64
        ensures { result ≡ self.now.accounts.packed }
    {
        self.account.sums().packed
    }

    /// Ticks the peer at the moment `now`, in milliseconds: one step. A POKE is sent if one is due. Then each leg is ticked by
    /// ascending number. Then the trunk queue is packed: all of it while the outbox has room, or, in plan version 4, once its
    /// oldest entry is `trunk_ms` old. Also returns whether a leg is to be finished then.
    ///
    /// Returns `StepsSpent` if and only if the peer has no step credit left; then nothing is changed.
    pub fn tick(&mut self, pass: &mut Pass<J>, now: u64) -> Result<TickReport, StepsSpent>
        ensures { WasTicked J.first_steps now result self.old self.new pass.old pass.new }
    {
        if self.account.is_spent() {
            return Err(StepsSpent);
        }
        let packed_before = self.packed();
        self.account.count_step(pass);
        self.poke_if_due(now);
        let skipped = self.tick_legs(now);
        self.pack_at_tick(now);
        Ok(TickReport {
            skipped,
            packed: self.packed() - packed_before,
            is_quiet: self.legs.are_quiet(),
        })
    }
}
