//! The wait of a wire of the system is ended from outside.
use crate::tests::same::{holds, same};
use peer_plan::Endpoint;
use std::alloc::Global;
use std::net::Net;
use std::process::Abort;
use std::test::*;
use std::thread;
use std::time::{Clock, Duration, Instant};
use udp_wires::{MioWire, Sharing, Wire};

// A wait that is to be ended, and the end of those that were, in milliseconds.
const LONG: u64 = 30_000;

const SOON: u64 = 15_000;

// The wire of a worker that may share its endpoint, a port that the system chooses. It has no datagram.
fn wire_at_loopback<R: Abort + Net>(rt: &R, alloc: Global) -> MioWire {
    let at = Endpoint {
        address: [127, 0, 0, 1],
        port: 0,
    };
    let Ok(mut wire) = MioWire::bind(rt, alloc, at, Vec::new(alloc), Sharing::First) else {
        panic!(rt; "a wire");
    };
    let mut octets = [0u8; 64];
    same(rt, &wire.receive(&mut octets), &Ok(None));
    wire
}

// Returns the length of a wait of at most `ms` milliseconds.
fn waited<R: Abort + Clock>(rt: &R, wire: &mut MioWire, ms: u64) -> u64 {
    let begun = Instant::now(rt).expect(rt, "a clock");
    wire.wait(ms);
    let elapsed = begun.elapsed(rt).expect(rt, "a clock");
    elapsed
        .as_secs()
        .saturating_mul(1000)
        .saturating_add(u64::from(elapsed.subsec_millis()))
}

#[test]
fn wake_before_the_wait(rt: HostRuntime) {
    let mut wire = wire_at_loopback(&rt, rt.alloc());
    holds(
        &rt,
        "short before it has a waker",
        waited(&rt, &mut wire, LONG) < SOON,
    );
    let waker = wire.waker().expect(&rt, "a waker");
    for _ in 0..2 {
        waker.wake();
        waker.wake();
        holds(&rt, "woken", waited(&rt, &mut wire, LONG) < SOON);
        holds(&rt, "not woken", waited(&rt, &mut wire, 40) >= 30);
    }
}

#[test]
fn wake_from_another_thread(rt: HostRuntime) {
    let mut wire = wire_at_loopback(&rt, rt.alloc());
    let waker = wire.waker().expect(&rt, "a waker");
    let waking = thread::spawn(&rt, move || {
        thread::sleep(&rt, Duration::from_millis(30));
        waker.wake();
        waker
    });
    let waking = waking.expect(&rt, "a thread");
    holds(&rt, "woken", waited(&rt, &mut wire, LONG) < SOON);
    let _waker = waking.join(&rt);
}
