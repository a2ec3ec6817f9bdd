//! The room of a leg's record ("Message Transport"), and the time that the leg waits for the answer to its challenge.
ghost use Rattle.std.specs.Prelude.{◌≡◌, ◌<◌, ◌≤◌, None, Err, IfErr, OnOk, OnErr};
ghost use Rattle.leg_machine.specs.Leg.{is_record_full, is_short_of_entries, is_short_of_octets, is_challenged};
ghost use Rattle.leg_machine.specs.Leg.{has_heard_enough, is_overdue};
ghost use Rattle.leg_machine.specs.Working.{frame_refused, IsFrameRefusal};
ghost use Rattle.memory_requests.specs.Refused.{WasRefused};

use crate::machine::Machine;
use call_signals::{Stage, StepError};
use iax_frames::Full;

// The greatest length of a full frame's data, in octets.
const MAX_PAYLOAD: usize = 1388;

// The limits on the record of a leg that waits for the answer to its challenge, and on the answer to a frame in it.
const CHALLENGED_ENTRIES: usize = 32;

const CHALLENGED_OCTETS: usize = 4096;

const CHALLENGED_ANSWER: usize = 64;

impl Machine {
    ghost use Rattle.leg_machine.specs.Leg.{leg_of, whole_leg, capacity_of, HasRoom};

    // Returns whether fewer than four entries are free, which is the most that one event needs.
    fn is_short_of_entries(&self) -> bool
        ensures { result ≡ is_short_of_entries (leg_of self.now) }
    {
        self.window.free_entries() < 4
    }

    // Returns whether fewer octets of data are left than a full frame and its answer may have.
    fn is_short_of_octets(&self) -> bool
        ensures { result ≡ is_short_of_octets (leg_of self.now) }
    {
        match self.rules.record_octets {
            Some(most) => (most as usize) < self.window.data_octets() + 2 * MAX_PAYLOAD,
            None => false,
        }
    }

    /// Returns whether the leg waits for the answer to its challenge.
    pub fn is_challenged(&self) -> bool
        ensures { result ≡ is_challenged self.now.stage }
    {
        matches!(self.stage, Stage::Challenged)
    }

    // Returns whether the leg waits for the answer to its challenge, and its record is as full as it may be until then.
    fn has_heard_enough(&self) -> bool
        ensures { result ≡ has_heard_enough (leg_of self.now) }
    {
        if !self.is_challenged() || self.rules.challenge_ms.is_none() {
            return false;
        }
        let entries = self.window.record().len();
        CHALLENGED_ENTRIES < entries + 4
            || CHALLENGED_OCTETS < self.window.data_octets() + MAX_PAYLOAD + CHALLENGED_ANSWER
    }

    /// Returns whether the record has no room for one more full frame and the entries that follow from it. It has none if
    /// fewer than four entries or fewer than 2,776 octets of data are free. It has none either if the leg waits for the
    /// answer to its challenge and has reached its limits.
    pub fn is_record_full(&self) -> bool
        ensures { result ≡ is_record_full (leg_of self.now) }
    {
        self.is_short_of_entries() || self.is_short_of_octets() || self.has_heard_enough()
    }

    /// Returns whether the leg's challenge wasn't answered in time, at the moment `now`, in milliseconds.
    pub fn is_overdue(&self, now: u64) -> bool
        ensures { result ≡ is_overdue (leg_of self.now) now }
    {
        match self.rules.challenge_ms {
            Some(ms) => self.is_challenged() && self.opened <= now && ms <= now - self.opened,
            None => false,
        }
    }

    /// Returns the refusal of a full frame, memory aside: `RecordFull` if the record is full, then `Unaddressed` and
    /// `NewUnacknowledged`.
    pub fn frame_refused(&self, frame: &Full) -> Option<StepError>
        ensures { result ≡ frame_refused (leg_of self.now) frame.now }
    {
        if self.is_record_full() {
            return Some(StepError::RecordFull);
        }
        self.refusal(frame)
    }

    /// Makes room for the entries that a full frame can add to the record: four.
    ///
    /// Refusals are those of `frame_refused`, then `Memory` if memory was refused, which never happens with four spare
    /// entries. Then nothing is changed.
    pub fn room_for_frame(&mut self, frame: &Full) -> Result<(), StepError>
        ensures leg { leg_of self.new ≡ leg_of self.old }
        ensures room { OnOk result (HasRoom 4 self.new) }
        ensures unrefused { OnOk result (frame_refused (leg_of self.old) frame.now ≡ None) }
        ensures refused { IfErr result (IsFrameRefusal (frame_refused (leg_of self.old) frame.now)) }
        ensures memory { result ≡ Err StepError.Memory → self.old.window.spare < 4 }
        ensures err { OnErr result (self.new ≡ self.old) }
        ensures capacity { capacity_of (whole_leg self.old) ≤ capacity_of (whole_leg self.new) }
        ensures no_memory { result ≡ Err StepError.Memory → WasRefused }
    {
        if let Some(error) = self.frame_refused(frame) {
            return Err(error);
        }
        self.window.reserve(4)?;
        Ok(())
    }
}
