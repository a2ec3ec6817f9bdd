//! The inputs of a run other than its wire: moments and challenges.
use call_auth::Challenge;

/// Supplies the moments of a run.
pub trait TurnClock {
    ghost use Rattle.std.specs.Prelude.{⊤, ℕ};

    /// In the first state it gave this moment, which left it in the second.
    ghost gave: { Self → ℕ → Self → Type 0 } = { λ _ _ _. ⊤ };

    /// Returns the milliseconds since the exchange was opened.
    fn now(&mut self) -> u64
        ensures { gave self.old result self.new };
}

/// Supplies the challenges of a run.
pub trait Challenges {
    ghost use Rattle.std.specs.Prelude.{⊤, ℕ, List};

    /// In the first state it gave a challenge with these octets, which left it in the second.
    ghost gave: { Self → List ℕ → Self → Type 0 } = { λ _ _ _. ⊤ };

    /// Returns the challenge that callers of the next turn have to answer.
    fn draw(&mut self) -> Challenge
        ensures { gave self.old result self.new };
}
