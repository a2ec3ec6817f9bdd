//! Challenges of random decimal digits.
ghost use Rattle.call_auth.specs.Challenge.{IsChallenge};
ghost use Rattle.std.specs.Prelude.{◌≡◌, ◌≤◌, ◌<◌, ℕ, length, slice_index, take};

use call_auth::Challenge;
use rand::RngExt;
use rand::rngs::StdRng;
use rand_core::Rng;
use udp_workers::Challenges;

/// Draws challenges from a generator ("Authentication"). A challenge is ten decimal digits. If the exchange's challenges have
/// a common prefix, it is that prefix and decimal digits up to 32 octets.
#[derive(Drop)]
pub struct Digits {
    pub(crate) generator: StdRng,
    pub(crate) prefix: Option<Challenge>,
}

impl Challenges for Digits {
    ghost use Rattle.std.specs.Prelude.{MatchOption};

    // It begins with the prefix, if there is one, and otherwise has ten octets.
    ghost gave = { λ digits challenge _. MatchOption digits.prefix (length challenge ≡ 10)
        (λ prefix. take (length prefix) challenge ≡ prefix) };

    fn draw(&mut self) -> Challenge {
        match &self.prefix {
            Some(prefix) => challenge_behind(prefix, &mut self.generator),
            None => ten_digits_alone(&mut self.generator),
        }
    }
}

// Draws a challenge of ten decimal digits.
fn ten_digits_alone<R: Rng>(generator: &mut R) -> Challenge
    ensures { length result ≡ 10 }
{
    match Challenge::new(&ten_digits(generator)) {
        Some(challenge) => challenge,
        None => unreachable!(),
    }
}

// Draws ten decimal digits.
fn ten_digits<R: Rng>(generator: &mut R) -> [u8; 10]
    ensures { (k : ℕ) → k < 10 → (48 ≤ slice_index result k) × (slice_index result k ≤ 57) }
{
    let mut digits = [b'0'; 10];
    for digit in digits.iter_mut() {
        *digit = generator.random_range(b'0'..=b'9');
    }
    digits
}

// Draws a challenge that begins with the prefix.
fn challenge_behind<R: Rng>(prefix: &Challenge, generator: &mut R) -> Challenge
    ensures { take (length prefix.now) result ≡ prefix.now }
{
    match Challenge::new(&digits_behind(prefix, generator)) {
        Some(challenge) => challenge,
        None => unreachable!(),
    }
}

// Returns the prefix with decimal digits behind it, up to the length of a challenge.
fn digits_behind<R: Rng>(prefix: &Challenge, generator: &mut R) -> [u8; 32]
    ensures prefix { take (length prefix.now) result ≡ prefix.now }
    ensures challenge { IsChallenge result }
    ensures digits { (k : ℕ) → length prefix.now ≤ k → k < 32 → (48 ≤ slice_index result k) × (slice_index result k ≤ 57) }
{
    let mut text = [b'0'; 32];
    for digit in text.iter_mut() {
        *digit = generator.random_range(b'0'..=b'9');
    }
    let prefix = prefix.as_slice();
    text[..prefix.len()].copy_from_slice(prefix);
    text
}
