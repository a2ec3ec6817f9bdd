//! A wire in memory: it supplies the datagrams of a test, keeps those that it is given, and fails at one of its calls.
ghost use Rattle.std.specs.Prelude.{◌≡◌, ◌≤◌, length};
ghost use Rattle.udp_workers.specs.Served.{AreEndpoints, peers_of};

use exchange_core::{Exchange, Gate};
use peer_lock::LedgerSet;
use peer_plan::{Endpoint, Plan, WorkerId};
use std::alloc::{AllocError, Global};
use std::process::Abort;
use udp_wires::{PeerCounts, Traffic, Wire, WireFault};
use udp_workers::Worker;

// A datagram that was sent.
#[derive(Drop)]
struct Sent {
    to: Endpoint,
    octets: Vec<u8>,
}

// A datagram that comes again and again.
#[derive(Drop)]
struct Burst {
    from: Endpoint,
    octets: Vec<u8>,
    // The number of times that it still comes.
    left: u64,
}

/// A wire in memory.
#[derive(Drop)]
pub struct MemoryWire {
    alloc: Global,
    peers: PeerCounts,
    given: u64,
    failures: u64,
    // The datagram that comes next.
    next: Option<(Endpoint, &'static [u8])>,
    // The datagrams that come if there is none next.
    burst: Option<Burst>,
    // The sent datagrams, in order.
    kept: Vec<Sent>,
    // The number of further calls of `receive` and `send` that succeed before one fails.
    good_calls: u64,
    came: Traffic,
    went: Traffic,
    sent: Traffic,
}

impl MemoryWire {
    ghost use Rattle.std.specs.Prelude.{◌≡◌, IfOk};

    /// Returns a wire that fails at its call of this place, counted from 1; at 0 never.
    pub fn new(alloc: Global, peers: Vec<Endpoint>, fails_at: u64) -> Result<MemoryWire, AllocError>
        ensures { IfOk result (λ wire. wire.peers.endpoints ≡ peers) }
    {
        Ok(MemoryWire {
            alloc,
            peers: PeerCounts::new(alloc, peers)?,
            given: 0,
            failures: 0,
            next: None,
            burst: None,
            kept: Vec::new(alloc),
            good_calls: fails_at.wrapping_sub(1),
            came: Traffic::new(),
            went: Traffic::new(),
            sent: Traffic::new(),
        })
    }

    /// Supplies a datagram. Returns false if the one before it wasn't received yet.
    pub fn put(&mut self, from: Endpoint, octets: &'static [u8]) -> bool
        ensures { self.new.peers ≡ self.old.peers }
    {
        if self.next.is_some() {
            return false;
        }
        self.next = Some((from, octets));
        true
    }

    /// Supplies a datagram that comes `times` times.
    pub fn put_often(&mut self, from: Endpoint, octets: Vec<u8>, times: u64)
        ensures { self.new.peers ≡ self.old.peers }
    {
        self.burst = Some(Burst {
            from,
            octets,
            left: times,
        });
    }

    /// Returns whether exactly these datagrams were sent to an endpoint, in order.
    pub fn has_sent(&self, to: Endpoint, wanted: &[&[u8]]) -> bool {
        let mut count: usize = 0;
        for datagram in &self.kept {
            if datagram.to == to {
                match wanted.get(count) {
                    Some(octets) if datagram.octets.as_slice() == *octets => {}
                    _ => return false,
                }
                count = count.saturating_add(1);
            }
        }
        count == wanted.len()
    }

    // Returns whether this call fails.
    fn fails(&mut self) -> bool
        ensures peers { self.new.peers ≡ self.old.peers }
        ensures given { self.new.given ≡ self.old.given }
        ensures failures { self.new.failures ≡ self.old.failures }
        ensures came { self.new.came ≡ self.old.came }
        ensures went { self.new.went ≡ self.old.went }
        ensures sent { self.new.sent ≡ self.old.sent }
    {
        let fails = self.good_calls == 0;
        self.good_calls = self.good_calls.wrapping_sub(1);
        fails
    }
}

// Writes a datagram to the front of the lent octets. Returns its length there.
fn put_into(octets: &mut [u8], datagram: &[u8]) -> usize
    ensures { result ≤ length octets.new }
{
    let len = datagram.len().min(octets.len());
    octets[..len].copy_from_slice(datagram.split_at(len).0);
    len
}

impl Wire for MemoryWire {
    ghost use Rattle.udp_wires.specs.PeerCounts.{count_of};

    ghost came = { λ wire. wire.came };

    ghost went = { λ wire. wire.went };

    ghost sent = { λ wire. wire.sent };

    ghost given = { λ wire. wire.given };

    ghost given_to = { λ wire. count_of wire.peers };

    ghost failures = { λ wire. wire.failures };

    ghost peers = { λ wire. wire.peers.endpoints.items };

    fn receive(&mut self, octets: &mut [u8]) -> Result<Option<(usize, Endpoint)>, WireFault> {
        if self.fails() {
            self.failures = self.failures.wrapping_add(1);
            return Err(WireFault);
        }
        let (len, from) = if let Some((from, datagram)) = self.next.take() {
            (put_into(octets, datagram), from)
        } else {
            match &mut self.burst {
                Some(burst) if burst.left > 0 => {
                    burst.left -= 1;
                    (put_into(octets, &burst.octets), burst.from)
                }
                _ => return Ok(None),
            }
        };
        self.came.add(from, &octets[..len]);
        Ok(Some((len, from)))
    }

    fn send(&mut self, to: Endpoint, octets: &[u8]) -> Result<bool, WireFault> {
        self.given = self.given.wrapping_add(1);
        self.went.add(to, octets);
        self.peers.count(to);
        if self.fails() {
            self.failures = self.failures.wrapping_add(1);
            return Err(WireFault);
        }
        let Ok(copied) = octets.to_vec(self.alloc) else {
            return Ok(false);
        };
        let copy = Sent { to, octets: copied };
        if self.kept.push(copy).is_err() {
            return Ok(false);
        }
        self.sent.add(to, octets);
        Ok(true)
    }

    fn wait(&mut self, _ms: u64) {}

    fn peers(&self) -> &[Endpoint] {
        &self.peers.endpoints
    }

    fn given(&self) -> u64 {
        self.given
    }

    fn given_to(&self, to: Endpoint) -> u64 {
        self.peers.get(to)
    }

    fn failures(&self) -> u64 {
        self.failures
    }
}

/// Returns a wire in memory for a worker of a plan, which fails at its call of this place; at 0 never.
pub fn wire_of(
    rt: &impl Abort,
    alloc: Global,
    plan: &Plan,
    worker: &Worker,
    fails_at: u64,
) -> MemoryWire
    requires { worker.now.peers ≡ peers_of plan.now worker.now.place }
    ensures { AreEndpoints plan.now worker.now.peers result.peers.endpoints.items }
{
    let endpoints = worker.endpoints(alloc, plan).expect(rt, "the endpoints");
    MemoryWire::new(alloc, endpoints, fails_at).expect(rt, "a wire")
}

/// Returns the first worker of an exchange, and its wire in memory, which fails at its call of this place; at 0 never.
pub fn first_worker<G: Gate, J: LedgerSet>(
    rt: &impl Abort,
    alloc: Global,
    exchange: &Exchange<G, J>,
    fails_at: u64,
) -> (Worker, MemoryWire)
    ensures place { result.0.place ≡ 0 }
    ensures peers { result.0.peers ≡ peers_of exchange.now result.0.place }
    ensures wire { AreEndpoints exchange.now result.0.peers result.1.peers.endpoints.items }
{
    // A plan has a worker.
    let _workers = exchange.plan().workers();
    let worker = Worker::new(exchange.plan(), WorkerId::new(0));
    let wire = wire_of(rt, alloc, exchange.plan(), &worker, fails_at);
    (worker, wire)
}
