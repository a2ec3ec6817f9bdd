//! A wire that fails at one of its calls: each place in turn, until the call meets no fault.
use crate::tests::same::{holds, same};
use crate::tests::wires::whole_call::play_over;
use std::alloc::Global;
use std::net::Net;
use std::process::Abort;
use std::sync::Wait;
use std::thread::Threads;
use std::time::Clock;
use udp_workers::TurnReport;

// Returns the report of a call over a wire that fails at its call of this place.
fn report_of<R: Abort + Clock + Net + Sync + Threads + Wait>(
    rt: &R,
    alloc: Global,
    place: u64,
) -> TurnReport {
    let played = play_over(rt, alloc, place);
    holds(rt, "counted", played.counted);
    let given = played.to_west.wrapping_add(played.to_east);
    let gone = played.report.sent.wrapping_add(played.report.lost);
    same(rt, &(place, given), &(place, gone));
    played.report
}

#[test]
fn each_call_of_the_wire_fails(rt: HostRuntime) {
    // Each of the 7 turns asks twice for a datagram and finds one, and 7 frames are sent.
    for place in 1..22u64 {
        let report = report_of(&rt, rt.alloc(), place);
        same(&rt, &(place, report.faults), &(place, 1));
    }
    let report = report_of(&rt, rt.alloc(), 22);
    let found = (report.faults, report.received, report.sent);
    same(&rt, &found, &(0, 7, 7));
}
