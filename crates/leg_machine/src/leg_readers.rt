//! Read-only queries of a leg.
ghost use Rattle.std.specs.Prelude.{◌≡◌, ℕ, ◌+◌, ◌^◌, ◌<◌, ◌≤◌, true, false, length, option_copied, is_some, if◌then◌else◌};
ghost use Rattle.std.specs.Prelude.{IfSome};
ghost use Rattle.seq_window.specs.History.{IsLegal};
ghost use Rattle.leg_machine.specs.Media.{accepts_media};
ghost use Rattle.leg_machine.specs.Onward.{onward_of};
ghost use Rattle.leg_machine.specs.Openings.{opening_data, new_data, called_of, calling_of, caller_of, formats_of};
ghost use Rattle.leg_machine.specs.Ticks.{is_idle};
ghost use Rattle.leg_machine.specs.Tie.{SendsNumbered};
ghost use Rattle.leg_machine.specs.Working.{frame_refused};
ghost use Rattle.call_signals.specs.NewElements.{named, new_elements};
ghost use Rattle.call_signals.specs.declared.signal.Signal.TheVariants.{Offered};

use crate::leg::Leg;
use crate::leg_table::is_media;
use crate::machine::Machine;
use call_signals::openings::offered_formats;
use call_signals::{
    Caller, Cause, ElementText, Failure, Format, Formats, Indication, MediaIn, MediaSpan, Moments,
    NewElements, Onward, Signal, Stage, StepError,
};
use iax_frames::{CallNumber, Full};
use info_elements::{CALLED_NUMBER, CALLING_NUMBER, last_in};
use seq_window::{EntryView, Record, Window};

impl Leg {
    /// Returns whether media of the other side counts now ("Mini Frames"). It is `Accepted` if the leg is talking, took
    /// voice of the call's present format, and the span has 1 to 1,380 octets; otherwise `NotYet`.
    pub fn media_in(&self, span: MediaSpan) -> MediaIn
        ensures { result ≡ (if accepts_media self.now.state span then MediaIn.Accepted else MediaIn.NotYet) }
    {
        let machine = &self.machine;
        let is_media = is_media(span.len());
        let took_voice = machine.voice_taken.contains(machine.format);
        if machine.stage.is_talking() && took_voice && is_media {
            MediaIn::Accepted
        } else {
            MediaIn::NotYet
        }
    }

    /// Returns the stage of the leg.
    pub fn stage(&self) -> Stage
        ensures { result ≡ self.now.state.stage }
    {
        self.machine.stage
    }

    /// Returns whether the layer above isn't done yet with the end of the call.
    pub fn owes(&self) -> bool
        ensures { result ≡ self.now.state.owes }
    {
        self.machine.owes
    }

    /// Returns whether the leg hangs up as soon as a tick can.
    pub fn doomed(&self) -> bool
        ensures { result ≡ self.now.state.doomed }
    {
        self.machine.doomed
    }

    /// Returns the first moment, in milliseconds, at which a tick has work: the leg is idle before it. The largest moment
    /// means any later one, or none.
    pub fn idle_until(&self) -> u64
        ensures before { (now : ℕ) → now < result → is_idle self.now.state now ≡ true }
        ensures then { result + 1 < 2 ^ 64 → is_idle self.now.state result ≡ false }
    {
        self.machine.idle_until()
    }

    /// Returns the moment at which the leg was opened, in milliseconds.
    pub fn opened(&self) -> u64
        ensures { result ≡ self.now.state.opened }
    {
        self.machine.opened
    }

    /// Returns the cause of the leg's end, or of the hang-up that is due; normal clearing until it is known.
    pub fn cause(&self) -> Cause
        ensures { result ≡ self.now.state.cause }
    {
        self.machine.cause
    }

    /// Returns the format of the call: that of its NEW, until it is accepted in another one.
    pub fn format(&self) -> Format
        ensures { result ≡ self.now.state.format }
    {
        self.machine.format
    }

    /// Returns the other side's number of the call, once it is known.
    pub fn remote(&self) -> Option<CallNumber>
        ensures { result ≡ self.now.state.remote }
    {
        self.machine.remote
    }

    /// Returns the failure that ended it, if no HANGUP or REJECT did; none while it hasn't ended.
    pub fn failure(&self) -> Option<Failure>
        ensures { result ≡ self.now.state.failure }
    {
        self.machine.failure
    }

    /// Returns the number of retransmitted full frames, modulo 2^64.
    pub fn resent(&self) -> u64
        ensures { result ≡ self.now.state.resent }
    {
        self.machine.resent
    }

    /// Returns the moments at which the call was first offered, accepted, answered and over, in milliseconds.
    pub fn moments(&self) -> Moments
        ensures { result ≡ self.now.state.moments }
    {
        self.machine.moments
    }

    /// Returns whether a challenge was sent to the other side ("AUTHREQ").
    pub fn was_challenged(&self) -> bool
        ensures { result ≡ is_some self.now.state.challenge }
    {
        self.machine.challenge.is_some()
    }

    /// Returns whether a challenge of the other side was answered ("AUTHREP").
    pub fn is_authenticated(&self) -> bool
        ensures { result ≡ self.now.state.authenticated }
    {
        self.machine.authenticated
    }

    /// Returns the local number, 1 ..= 32,767.
    pub fn number(&self) -> CallNumber
        ensures value { result ≡ self.now.state.number }
        ensures some { 1 ≤ result }
    {
        self.machine.number.get()
    }

    /// Returns the window and its record. Its held frames are those that the record has as sent and not acknowledged. The
    /// sent frames of the record are numbered.
    pub fn window(&self) -> &Window
        ensures window { result.now.state ≡ self.now.state.window }
        ensures numbered { SendsNumbered self.now.state }
    {
        &self.machine.window
    }

    /// Returns the refusal of a full frame, memory aside; none if the leg handles it ("Full Frames").
    ///
    /// `RecordFull` comes first. The record has no room for one more full frame and the entries that follow from it if
    /// fewer than four entries are free, or fewer than 2,776 octets of data of those that the peer's rules allow. A leg
    /// that waits for the answer to its challenge has lower limits: one more frame must not bring it past 32 entries or
    /// 4,096 octets of data. On a hardened leg `Unaddressed` and `NewUnacknowledged` follow, as `full_into` says.
    pub fn frame_refused(&self, frame: &Full) -> Option<StepError>
        ensures { result ≡ frame_refused self.now.state frame.now }
    {
        self.machine.frame_refused(frame)
    }

    /// Returns the number of entries that the record takes without further memory.
    pub fn spare(&self) -> usize
        ensures { result ≡ self.now.spare }
    {
        self.machine.window.spare()
    }

    /// Returns the whole record, when the leg is given up.
    pub fn into_record(self) -> Record
        ensures entries { result.entries ≡ self.state.window.history }
        ensures legal { IsLegal self.state.window.width self.state.window.limit self.state.window.history }
    {
        let Leg { machine } = self;
        let Machine {
            rules: _,
            number: _,
            opened: _,
            stage: _,
            format: _,
            remote: _,
            owes: _,
            doomed: _,
            cause: _,
            quelched: _,
            challenge: _,
            authenticated: _,
            voice_taken: _,
            voice_sent: _,
            pinged: _,
            vnak_sent: _,
            vnak_answered: _,
            is_named: _,
            is_acknowledged: _,
            failure: _,
            resent: _,
            moments: _,
            window,
        } = machine;
        window.into_record()
    }

    // Returns the data of the NEW that opened the leg.
    fn opening_data(&self) -> &[u8]
        ensures { result.now ≡ opening_data self.now.state.window.history }
    {
        match self.machine.window.record().entry(0) {
            Some(EntryView::Taken(frame)) => frame.payload,
            Some(EntryView::Sent(_)) => &[],
            Some(EntryView::Acked(_)) => &[],
            None => &[],
        }
    }

    /// Returns the called number of an offered call, at most 255 octets; empty if it is absent.
    pub fn called(&self) -> &[u8]
        ensures value { result.now ≡ called_of self.now.state }
        ensures short { length result.now ≤ 255 }
    {
        match last_in(self.opening_data(), CALLED_NUMBER) {
            Some(called) => called,
            None => &[],
        }
    }

    /// Returns the calling number of an offered call, at most 255 octets, or `None` if the NEW has none.
    pub fn calling(&self) -> Option<&[u8]>
        ensures value { option_copied result ≡ calling_of self.now.state }
        ensures short { IfSome result (λ text. length text.now ≤ 255) }
    {
        last_in(self.opening_data(), CALLING_NUMBER)
    }

    /// Returns the caller's elements that are carried on with an offered call.
    pub fn caller(&self) -> Caller
        ensures { result ≡ caller_of self.now.state }
    {
        Caller::of(&self.opening_elements(), self.machine.rules.carries_caller)
    }

    /// Returns the formats that an offered call may have.
    pub fn offered_formats(&self) -> Formats
        ensures { result ≡ formats_of self.now.state }
    {
        let machine = &self.machine;
        offered_formats(&machine.rules, &self.opening_elements(), machine.format)
    }

    /// Reads the elements of the NEW that opened the leg; all are absent if no NEW came.
    pub fn opening_elements(&self) -> NewElements<'_>
        ensures elements { named result ≡ new_elements (opening_data self.now.state.window.history) }
        ensures called { IfSome result.called (λ text. length text.now ≤ 255) }
        ensures calling { IfSome result.calling (λ text. length text.now ≤ 255) }
        ensures name { IfSome result.name (λ text. length text.now ≤ 255) }
    {
        NewElements::read(self.opening_data())
    }

    // Returns the data of the NEW with which the call began, whichever side sent it.
    fn new_data(&self) -> &[u8]
        ensures { result.now ≡ new_data self.now.state.window.history }
    {
        match self.machine.window.record().entry(0) {
            Some(EntryView::Taken(frame)) => frame.payload,
            Some(EntryView::Sent(frame)) => frame.payload,
            Some(EntryView::Acked(_)) => &[],
            None => &[],
        }
    }

    /// Reads the elements of the NEW with which the call began, whichever side sent it.
    pub fn new_elements(&self) -> NewElements<'_>
        ensures elements { named result ≡ new_elements (new_data self.now.state.window.history) }
        ensures called { IfSome result.called (λ text. length text.now ≤ 255) }
        ensures calling { IfSome result.calling (λ text. length text.now ≤ 255) }
        ensures name { IfSome result.name (λ text. length text.now ≤ 255) }
    {
        NewElements::read(self.new_data())
    }

    // Returns the offer of an offered call.
    fn offered(&self) -> Onward
        ensures { result ≡ onward_of self.now.state Offered }
    {
        let elements = self.opening_elements();
        let called = match elements.called {
            Some(called) => called,
            None => &[],
        };
        Onward::Offered {
            called: ElementText::new(called),
            calling: ElementText::of(elements.calling),
            format: self.machine.format,
        }
    }

    /// Returns a signal with its values: for an offer the called number, the calling number and the format.
    pub fn onward(&self, signal: Signal) -> Onward
        ensures { result ≡ onward_of self.now.state signal }
    {
        match &signal {
            Signal::Offered => self.offered(),
            Signal::Indicated(Indication::Ringing) => Onward::Ringing,
            Signal::Indicated(Indication::Progress) => Onward::Progress,
            Signal::Indicated(Indication::Proceeding) => Onward::Proceeding,
            Signal::Answered => Onward::Answered,
            Signal::Dtmf(digit) => Onward::Dtmf(*digit),
            Signal::Media(span) => Onward::Media(*span),
            Signal::Hangup => Onward::Hangup,
        }
    }
}
