//! Random values that an exchange draws from the system's entropy when it is opened.
ghost use Rattle.std.specs.Prelude.{◌≡◌, ◌≤◌, ◌<◌, ℕ, IfOk, IsFalse, length, slice_index};
ghost use Rattle.rand_core.specs.Stream.{Stream};
ghost use Rattle.worker_setup.specs.Drawing.{AreLetters, DrewBoth, DrewKey, FromSeed, HasLetters, NoneNeedsTokens};
ghost use Rattle.worker_setup.specs.Drawing.{draw_key, draw_letter, draw_prefix, drawn_values};

use crate::service_error::ServiceError;
use call_auth::Challenge;
use peer_plan::{Drawn, PeerId, Plan};
use rand::rngs::StdRng;
use rand::{RngExt, SeedableRng, make_rng};
use rand_core::Rng;
use std::random::RandomSource;

/// Returns the plan with a random prefix for its challenges, a random key for its call tokens, and a random offset for the
/// timestamps of its POKEs, all from the system's entropy. The prefix is twelve letters, some 56 bits; the key has 256 bits,
/// the offset 32. So an exchange recognizes its own challenges if they come back, and two exchanges can authenticate each
/// other.
///
/// Returns `Entropy` if the system gives no random octets.
pub fn with_drawn<R: RandomSource>(rt: &R, plan: Plan) -> Result<Plan, ServiceError>
    ensures drawn { IfOk result (λ drawn. FromSeed ⟦<StdRng as SeedableRng>⟧.of_seed ⟦<StdRng as Rng>⟧.stream
        (DrewBoth plan drawn)) }
    ensures workers { IfOk result (λ drawn. drawn.workers ≡ plan.workers) }
    ensures passes { IfOk result (λ drawn. drawn.passes ≡ plan.passes) }
    ensures peers { IfOk result (λ drawn. length drawn.peers ≡ length plan.peers) }
{
    let Ok(mut generator) = make_rng(rt) else {
        return Err(ServiceError::Entropy);
    };
    let drawn = values::<StdRng>(&mut generator);
    Ok(plan.with_drawn(&drawn))
}

/// Returns the plan with a random key of 256 bits for its call tokens, from the system's entropy, if a peer needs them. Its
/// challenges have no common prefix, and nothing is added to the timestamps of POKEs.
///
/// Returns `Entropy` if the system gives no random octets.
pub fn with_drawn_key<R: RandomSource>(rt: &R, plan: Plan) -> Result<Plan, ServiceError>
    ensures drawn { IfOk result (DrewKey (FromSeed ⟦<StdRng as SeedableRng>⟧.of_seed ⟦<StdRng as Rng>⟧.stream) plan) }
    ensures workers { IfOk result (λ drawn. drawn.workers ≡ plan.workers) }
    ensures passes { IfOk result (λ drawn. drawn.passes ≡ plan.passes) }
    ensures peers { IfOk result (λ drawn. length drawn.peers ≡ length plan.peers) }
{
    if !asks_for_tokens(&plan) {
        return Ok(plan);
    }
    let Ok(mut generator) = make_rng(rt) else {
        return Err(ServiceError::Entropy);
    };
    let token_key = key::<StdRng>(&mut generator);
    let drawn = Drawn {
        challenge_prefix: None,
        token_key,
        poke_offset: 0,
    };
    Ok(plan.with_drawn(&drawn))
}

// Returns whether a peer needs call tokens.
fn asks_for_tokens(plan: &Plan) -> bool
    ensures { IsFalse result → NoneNeedsTokens plan.now }
{
    for place in 0..plan.peer_count() {
        if plan.call_tokens(PeerId::new(place)).is_some() {
            return true;
        }
    }
    false
}

// Draws a prefix, a key and an offset, in this order.
fn values<R: Rng>(generator: &mut R) -> Drawn
    ensures letters { HasLetters result.challenge_prefix }
    ensures drawn { result ≡ drawn_values (R.stream generator.old) }
{
    let challenge_prefix = Some(prefix(generator));
    let token_key = key(generator);
    let poke_offset = generator.next_u32();
    Drawn {
        challenge_prefix,
        token_key,
        poke_offset,
    }
}

// Draws 32 octets.
fn key<R: Rng>(generator: &mut R) -> [u8; 32]
    ensures { (result, R.stream generator.new) ≡ draw_key (R.stream generator.old) }
{
    let mut key = [0; 32];
    generator.fill_bytes(&mut key);
    key
}

// Draws a prefix for challenges.
fn prefix<R: Rng>(generator: &mut R) -> Challenge
    ensures letters { AreLetters result }
    ensures drawn { (result, R.stream generator.new) ≡ draw_prefix (R.stream generator.old) }
{
    match Challenge::new(&twelve_letters(generator)) {
        Some(prefix) => prefix,
        None => unreachable!(),
    }
}

// Draws twelve lower-case letters.
fn twelve_letters<R: Rng>(generator: &mut R) -> [u8; 12]
    ensures letters { (k : ℕ) → k < 12 → (97 ≤ slice_index result k) × (slice_index result k ≤ 122) }
    ensures drawn { (result, R.stream generator.new) ≡ draw_prefix (R.stream generator.old) }
{
    let mut letters = [b'a'; 12];
    for letter in letters.iter_mut() {
        *letter = one_letter(generator);
    }
    letters
}

// Draws a lower-case letter.
fn one_letter<R: Rng>(generator: &mut R) -> u8
    ensures letter { (97 ≤ result) × (result ≤ 122) }
    ensures drawn { (result, R.stream generator.new) ≡ draw_letter (R.stream generator.old) }
{
    generator.random_range(b'a'..=b'z')
}
