//! The first call numbers and the first serial of a service.
ghost use Rattle.std.specs.Prelude.{◌≡◌, ◌≤◌, ◌*◌, ◌^◌, IfOk, OnOk, length};
ghost use Rattle.peer_plan.specs.Plan.{counts_of};
ghost use Rattle.rand_core.specs.Stream.{Stream};
ghost use Rattle.worker_setup.specs.Drawing.{FromSeed, draw_serial};
ghost use Rattle.worker_setup.specs.Skipping.{SkippedAll, SkippedBefore, SkippedUpTo, draw_skips};

use crate::service_error::ServiceError;
use exchange_core::{Exchange, NoGate, Pass};
use peer_lock::LedgerSet;
use peer_plan::PeerId;
use rand::rngs::StdRng;
use rand::{RngExt, SeedableRng, make_rng};
use rand_core::Rng;
use std::random::RandomSource;
use std::sync::Wait;
use trace_writer::Trace;

// The least first serial of a service. The `free` lines of a trace name each number of a plan once, so they use no more serials.
const LEAST_SERIAL: u64 = 32 * 512;

const GREATEST_SERIAL: u64 = 1 << 40;

/// The serial of the first leg of a service, 16,384 to 2^40, drawn from the system's entropy. So legs of two runs hardly ever
/// have one serial.
///
/// `Entropy`: the system gives no random octets.
pub fn first_serial<R: RandomSource>(rt: &R) -> Result<u64, ServiceError>
    ensures range { IfOk result (λ serial. (32 * 512 ≤ serial) × (serial ≤ 2 ^ 40)) }
    ensures drawn { IfOk result (λ serial. FromSeed ⟦<StdRng as SeedableRng>⟧.of_seed ⟦<StdRng as Rng>⟧.stream
        (λ s. serial ≡ (draw_serial s).0)) }
{
    match make_rng::<StdRng, R>(rt) {
        Ok(mut generator) => Ok(generator.random_range(LEAST_SERIAL..=GREATEST_SERIAL)),
        Err(_) => Err(ServiceError::Entropy),
    }
}

// Draws the number of names that a peer of `count` numbers skips.
fn skips<G: Rng>(generator: &mut G, count: u16) -> u16
    ensures { (result, G.stream generator.new) ≡ draw_skips count (G.stream generator.old) }
{
    if count > 1 {
        generator.random_range(0..count)
    } else {
        0
    }
}

// Skips `count` numbers of a peer, and notes each in the trace if there is one.
fn skip<J: LedgerSet, R: Wait>(
    rt: &R,
    exchange: &Exchange<NoGate, J>,
    pass: &mut Pass<J>,
    peer: PeerId,
    count: u16,
    trace: Option<&Trace>,
)
    ensures { SkippedUpTo peer count pass.old pass.new }
{
    'numbers: for _done in 0..count {
        let Some(name) = exchange.skip_number(rt, pass, peer) else {
            return;
        };
        if let Some(trace) = trace {
            trace.free(name.number);
        }
    }
}

// Skips numbers of each peer, as many as the generator gives.
fn skip_each<J: LedgerSet, G: Rng, R: Wait>(
    rt: &R,
    exchange: &Exchange<NoGate, J>,
    pass: &mut Pass<J>,
    generator: &mut G,
    trace: Option<&Trace>,
)
    ensures { SkippedBefore (counts_of exchange.now.peers) (G.stream generator.old) (length exchange.now.peers) pass.old
        pass.new }
{
    for place in 0..exchange.plan().peer_count() {
        let peer = PeerId::new(place);
        let count = exchange.plan().range(peer).count;
        let skips = skips(generator, count);
        skip(rt, exchange, pass, peer, skips, trace);
    }
}

/// Skips a random count of call numbers of each peer, and notes each in the trace if there is one, and the serial of the first
/// leg.
/// So the first calls don't have the numbers of an earlier service's calls, which a peer may still have. No call may be open yet.
///
/// Returns `Entropy` if the system gives no random octets.
pub fn skip_numbers<J: LedgerSet, R: RandomSource + Wait>(
    rt: &R,
    exchange: &Exchange<NoGate, J>,
    pass: &mut Pass<J>,
    trace: Option<&Trace>,
) -> Result<(), ServiceError>
    ensures { OnOk result (FromSeed ⟦<StdRng as SeedableRng>⟧.of_seed ⟦<StdRng as Rng>⟧.stream
        (λ s. SkippedAll exchange.now s pass.old pass.new)) }
{
    let Ok(mut generator) = make_rng::<StdRng, R>(rt) else {
        return Err(ServiceError::Entropy);
    };
    skip_each(rt, exchange, pass, &mut generator, trace);
    if let Some(trace) = trace {
        trace.tell_serial(exchange.next_serial(rt, pass));
    }
    Ok(())
}
