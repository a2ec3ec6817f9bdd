//! A socket on loopback calls a number that leads nowhere.
ghost use Rattle.std.specs.Prelude.{◌≡◌};
ghost use Rattle.udp_wires.specs.MioWire.{peers_of as wire_peers};
ghost use Rattle.udp_workers.specs.Served.{AreEndpoints, peers_of};

use crate::tests::desk::{EAST, WEST};
use crate::tests::opened::{Play, play_with};
use crate::tests::same::{holds, same};
use call_auth::Challenge;
use exchange_core::{Exchange, Gate, NoGate, Pass};
use layer_tests::plans::ONE_WORKER;
use mio::net::UdpSocket;
use peer_lock::LedgerSet;
use peer_plan::{Endpoint, Plan, WorkerId};
use std::alloc::Global;
use std::net::{IpAddr, Ipv4Addr, Net, SocketAddr};
use std::process::Abort;
use std::sync::Wait;
use std::test::*;
use udp_wires::{MioWire, Sharing, Wire};
use udp_workers::Worker;

// A NEW for 200, for which the plan has no route.
const NEW_FOR_200: &[u8] =
    b"\x80\x07\x00\x00\x00\x00\x00\x00\x00\x00\x06\x01\x0b\x02\x00\x02\x01\x03\x32\x30\x30\x09\x04\x00\x00\x00\x04\x08\x04\x00\
    \x00\x00\x04";

// Its REJECT: unallocated number.
const REJECT: &[u8] =
    b"\x80\x01\x00\x07\x00\x00\x00\x00\x00\x01\x06\x06\x16\x12\x75\x6e\x61\x6c\x6c\x6f\x63\x61\x74\x65\x64\x20\x6e\x75\x6d\x62\
    \x65\x72\x2a\x01\x01";

// Returns the address of a port at loopback.
fn address(port: u16) -> SocketAddr {
    SocketAddr::new(IpAddr::V4(Ipv4Addr::from_octets([127, 0, 0, 1])), port)
}

// Returns whether the next datagram at the socket, if there is one, is this one.
fn hears(socket: &UdpSocket, wanted: &[u8]) -> bool {
    let mut octets = [0u8; 2049];
    match socket.recv_from(&mut octets) {
        Ok((len, _)) => octets.split_at(len).0 == wanted,
        Err(_) => false,
    }
}

// Makes turns of a worker, 200 at most, until the socket receives the REJECT.
fn turn_until_rejected<G: Gate, J: LedgerSet, R: Wait>(
    rt: &R,
    exchange: &Exchange<G, J>,
    pass: &mut Pass<J>,
    worker: &mut Worker,
    wire: &mut MioWire,
    caller: &UdpSocket,
    challenge: &Challenge,
) -> bool
    requires peers { worker.old.peers ≡ peers_of exchange.now worker.old.place }
    requires wire { AreEndpoints exchange.now worker.old.peers (wire_peers wire.old) }
{
    for _ in 0..200 {
        let _report = worker.turn(rt, wire, exchange, pass, 0, challenge);
        if hears(caller, REJECT) {
            return true;
        }
        wire.wait(5);
    }
    false
}

// Returns a socket at the endpoint of the peer in the west, which has sent its NEW.
fn caller_at<R: Abort + Net>(rt: &R, at: Endpoint) -> UdpSocket {
    let caller = UdpSocket::bind(rt, address(WEST.port)).expect(rt, "a socket");
    let _len = caller
        .send_to(NEW_FOR_200, address(at.port))
        .expect(rt, "sent");
    caller
}

// Returns a worker's wire at an endpoint.
fn wire_of<R: Abort + Net>(
    rt: &R,
    alloc: Global,
    plan: &Plan,
    worker: &Worker,
    at: Endpoint,
) -> MioWire
    requires { worker.now.peers ≡ peers_of plan.now worker.now.place }
    ensures { AreEndpoints plan.now worker.now.peers (wire_peers result) }
{
    let endpoints = worker.endpoints(alloc, plan).expect(rt, "the endpoints");
    match MioWire::bind(rt, alloc, at, endpoints, Sharing::Alone) {
        Ok(wire) => wire,
        Err(_) => panic!(rt; "a wire"),
    }
}

/// The result of a call for 200.
#[derive(Clone, Copy)]
pub struct Rejection {
    is_heard: bool,
    // The number of datagrams that the wire was given for the peer in the west, and for the one in the east.
    to_west: u64,
    to_east: u64,
}

/// Runs the only worker of a plan for one caller, under the exchange's first pass.
pub fn call_first<G: Gate, J: LedgerSet, R: Abort + Net + Wait>(
    rt: &R,
    alloc: Global,
    exchange: &Exchange<G, J>,
    passes: &mut [Pass<J>],
) -> Rejection {
    let pass = passes.first_mut().expect(rt, "a pass");
    let challenge = Challenge::new(b"0").expect(rt, "a challenge");
    let at = *exchange.plan().workers().first().expect(rt, "a worker");
    let mut worker = Worker::new(exchange.plan(), WorkerId::new(0));
    let mut wire = wire_of(rt, alloc, exchange.plan(), &worker, at);
    let caller = caller_at(rt, at);
    let is_heard = turn_until_rejected(
        rt,
        exchange,
        pass,
        &mut worker,
        &mut wire,
        &caller,
        &challenge,
    );
    Rejection {
        is_heard,
        to_west: wire.given_to(WEST),
        to_east: wire.given_to(EAST),
    }
}

#[test]
fn reject_on_loopback(rt: HostRuntime) {
    let mut called = None;
    let played = Play::CallFor200(&mut called);
    let sums = play_with(&rt, rt.alloc(), ONE_WORKER, NoGate, played);
    holds(&rt, "played", sums.is_some());
    let rejection = called.expect(&rt, "a call");
    holds(&rt, "rejected", rejection.is_heard);
    same(&rt, &[rejection.to_west, rejection.to_east], &[1, 0]);
}
