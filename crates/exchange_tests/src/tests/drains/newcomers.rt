//! NEWs of callers that no peer has a leg for.

use crate::tests::desk::{Desk, Told};
use crate::tests::same::{holds, same};
use exchange_core::{Gate, Rejection};
use peer_lock::LedgerSet;
use peer_plan::Endpoint;
use std::process::Abort;
use std::sync::Wait;

// A NEW for 200, which leads nowhere, from call number 99.
const NEW_200: &[u8] =
    b"\x80\x63\x00\x00\x00\x00\x00\x00\x00\x00\x06\x01\x0b\x02\x00\x02\x01\x03\x32\x30\x30\x09\x04\x00\x00\x00\x04\x08\x04\x00\
    \x00\x00\x04";

// Its REJECT while the peer drains: switching equipment congestion, cause 42, from no leg.
const REJECT_42: &[u8] =
    b"\xff\xff\x00\x63\x00\x00\x00\x00\x00\x01\x06\x06\x16\x1e\x73\x77\x69\x74\x63\x68\x69\x6e\x67\x20\x65\x71\x75\x69\x70\x6d\
    \x65\x6e\x74\x20\x63\x6f\x6e\x67\x65\x73\x74\x69\x6f\x6e\x2a\x01\x2a";

// Returns the answer to the NEW of a peer of the plan. The ports of peers follow one another.
fn told_of<R: Wait, G: Gate, J: LedgerSet>(
    desk: &mut Desk<'_, R, G, J>,
    peer: u16,
    now: u64,
) -> Told {
    let from = Endpoint {
        address: [127, 0, 0, 1],
        port: peer.saturating_add(5001),
    };
    desk.datagram(from, NEW_200, now)
}

/// Asserts that the NEW of a peer that drains makes one step, which rejects it with cause 42, and nothing else.
pub fn expect_rejected<R: Abort + Wait, G: Gate, J: LedgerSet>(
    desk: &mut Desk<'_, R, G, J>,
    peer: u16,
    now: u64,
) {
    let told = told_of(desk, peer, now);
    let rt = desk.rt;
    same(rt, &told.rejected, &Some(Rejection::Draining));
    holds(rt, "one step", told.is_one_step() && told.retired == 0);
    let reject = desk.take_out(peer).expect(rt, "a REJECT");
    same(rt, &reject.octets(), &REJECT_42);
    holds(rt, "one answer", desk.take_out(peer).is_none());
}

/// Asserts that the NEW of a peer that doesn't drain opens a leg.
pub fn expect_let_in<R: Abort + Wait, G: Gate, J: LedgerSet>(
    desk: &mut Desk<'_, R, G, J>,
    peer: u16,
    now: u64,
) {
    let told = told_of(desk, peer, now);
    let rt = desk.rt;
    same(rt, &told.refused, &None);
    same(rt, &told.rejected, &None);
    let answer = desk.take_out(peer).expect(rt, "an answer");
    holds(
        rt,
        "it comes from a leg",
        answer.octets().first() != Some(&0xff),
    );
}
