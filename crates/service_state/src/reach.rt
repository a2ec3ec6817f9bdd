//! Whether a peer is there, by its signs of life and the POKEs that it got.
ghost use Rattle.std.specs.Prelude.{◌≡◌};
ghost use Rattle.service_state.specs.Reach as reach;

/// Whether a peer is there.
#[derive(Clone, Copy, Debug, PartialEq, Eq)]
pub enum Reach {
    /// It gave no sign of life, and no run of POKEs ended without an answer.
    Unknown,
    /// It gave a sign of life, and it isn't unreachable.
    Up,
    /// It gave no sign of life during a run of POKEs. It has the moment of the last one, in milliseconds; 0 if there was none.
    Unreachable(u64),
}

/// Returns whether a peer is there. `heard` is the moment of its last sign of life, in milliseconds; `None` before the first.
/// `unanswered_since` is the moment of the first POKE of the last run without an answer; `None` if there was none.
pub fn reach_of(heard: Option<u64>, unanswered_since: Option<u64>) -> Reach
    ensures { result ≡ reach.reach_of heard unanswered_since }
{
    match (heard, unanswered_since) {
        (None, None) => Reach::Unknown,
        (Some(_), None) => Reach::Up,
        (None, Some(_)) => Reach::Unreachable(0),
        (Some(heard), Some(since)) => {
            if since < heard {
                Reach::Up
            } else {
                Reach::Unreachable(heard)
            }
        }
    }
}

impl Reach {
    /// Returns for how many milliseconds the peer is unreachable at the moment `now`; `None` if it isn't.
    pub fn unreachable_ms(self, now: u64) -> Option<u64>
        ensures { result ≡ reach.unreachable_ms self now }
    {
        match self {
            Reach::Unreachable(since) => Some(now.saturating_sub(since)),
            Reach::Unknown | Reach::Up => None,
        }
    }

    /// Returns the name that clients see: `unknown`, `up` or `unreachable`.
    pub fn name(self) -> &'static str
        ensures { result.now ≡ reach.name_of self }
    {
        match self {
            Reach::Unknown => "unknown",
            Reach::Up => "up",
            Reach::Unreachable(_) => "unreachable",
        }
    }
}
