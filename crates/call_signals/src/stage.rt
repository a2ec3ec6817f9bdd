//! The stages of a leg.
ghost use Rattle.std.specs.Prelude.{◌≡◌};
ghost use Rattle.call_signals.specs.Stage as stages;

/// The stage of a leg in its call ("Call Setup").
#[derive(Clone, Copy, Debug, PartialEq, Eq)]
pub enum Stage {
    /// It sent a NEW, and the other side hasn't accepted the call yet.
    Waiting,
    /// It sent a challenge, and waits for the answer.
    Challenged,
    /// The other side's call is offered to the layer above.
    Offered,
    /// The call is accepted.
    Linked,
    /// The call is answered.
    Up,
    /// The call is over here, and frames are still held.
    Closing,
    /// The call is over.
    Ended,
}

impl Stage {
    /// Returns whether the call is over: `Closing` or `Ended`.
    pub fn is_over(self) -> bool
        ensures { result ≡ stages.is_over self }
    {
        matches!(self, Stage::Closing | Stage::Ended)
    }

    /// Returns whether the call is accepted and not over: `Linked` or `Up`.
    pub fn is_talking(self) -> bool
        ensures { result ≡ stages.is_talking self }
    {
        matches!(self, Stage::Linked | Stage::Up)
    }

    /// Returns whether the stage is `Waiting`.
    pub fn is_waiting(self) -> bool
        ensures { result ≡ stages.is_waiting self }
    {
        matches!(self, Stage::Waiting)
    }

    /// Returns whether the stage is `Offered`.
    pub fn is_offered(self) -> bool
        ensures { result ≡ stages.is_offered self }
    {
        matches!(self, Stage::Offered)
    }

    /// Returns whether the stage is `Linked`.
    pub fn is_linked(self) -> bool
        ensures { result ≡ stages.is_linked self }
    {
        matches!(self, Stage::Linked)
    }

    /// Returns whether the stage is `Up`.
    pub fn is_up(self) -> bool
        ensures { result ≡ stages.is_up self }
    {
        matches!(self, Stage::Up)
    }

    /// Returns whether the stage is `Closing`.
    pub fn is_closing(self) -> bool
        ensures { result ≡ stages.is_closing self }
    {
        matches!(self, Stage::Closing)
    }

    /// Returns whether the stage is `Ended`.
    pub fn is_ended(self) -> bool
        ensures { result ≡ stages.is_ended self }
    {
        matches!(self, Stage::Ended)
    }
}
