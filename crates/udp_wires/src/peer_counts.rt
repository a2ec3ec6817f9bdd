//! A count for each peer of a wire, for types that implement `Wire`.
ghost use Rattle.std.specs.Prelude.{◌≡◌, ◌≢◌, Contains, IfOk, length, position};
ghost use Rattle.peer_plan.specs.Reading.{is_endpoint};
ghost use Rattle.peer_plan.specs.declared.endpoint.Endpoint.{Endpoint};
ghost use Rattle.udp_wires.specs.Counts.{RisesBy};

use peer_plan::Endpoint;
use std::alloc::{AllocError, Global};

/// The endpoints of a wire's peers, and the number of datagrams for each, modulo 2^64.
#[derive(Drop)]
pub struct PeerCounts {
    pub endpoints: Vec<Endpoint>,
    /// By peer.
    pub counts: Vec<u64>,
    ghost by_peer: { length counts.items ≡ length endpoints.items },
}

impl PeerCounts {
    ghost use Rattle.udp_wires.specs.PeerCounts.{count_of};

    /// Returns a count of 0 for each of these endpoints.
    ///
    /// Returns `AllocError` if a request for memory was refused. Then the list is dropped.
    pub fn new(alloc: Global, endpoints: Vec<Endpoint>) -> Result<PeerCounts, AllocError>
        ensures endpoints { IfOk result (λ made. made.endpoints ≡ endpoints) }
        ensures none { IfOk result (λ made. (to : Endpoint) → count_of made to ≡ 0) }
    {
        let counts = vec![in alloc; 0; endpoints.len()]?;
        Ok(PeerCounts { endpoints, counts })
    }

    /// Counts a datagram for an endpoint, modulo 2^64. If no peer has the endpoint, nothing is counted.
    pub fn count(&mut self, to: Endpoint)
        ensures to { Contains self.old.endpoints.items to → RisesBy (count_of self.old to) (count_of self.new to) 1 }
        ensures others { (other : Endpoint) → other ≢ to → count_of self.new other ≡ count_of self.old other }
        ensures endpoints { self.new.endpoints ≡ self.old.endpoints }
    {
        let _place = self.count_at(to);
    }

    /// Counts a datagram for an endpoint, modulo 2^64, and returns the first place of the endpoint among the peers. If no
    /// peer has it, nothing is counted.
    pub(crate) fn count_at(&mut self, to: Endpoint) -> Option<usize>
        ensures place { result ≡ position (λ peer. is_endpoint peer to) self.old.endpoints.items }
        ensures to { Contains self.old.endpoints.items to → RisesBy (count_of self.old to) (count_of self.new to) 1 }
        ensures others { (other : Endpoint) → other ≢ to → count_of self.new other ≡ count_of self.old other }
        ensures endpoints { self.new.endpoints ≡ self.old.endpoints }
    {
        match place_of(&self.endpoints, to) {
            Some(place) => {
                self.counts[place] = self.counts[place].wrapping_add(1);
                Some(place)
            }
            None => None,
        }
    }

    /// Returns the number of datagrams for an endpoint, modulo 2^64; 0 if no peer has it.
    pub fn get(&self, to: Endpoint) -> u64
        ensures { result ≡ count_of self.now to }
    {
        match place_of(&self.endpoints, to) {
            Some(place) => self.counts[place],
            None => 0,
        }
    }
}

// Returns the first place of an endpoint.
fn place_of(endpoints: &[Endpoint], endpoint: Endpoint) -> Option<usize>
    ensures { result ≡ position (λ other. is_endpoint other endpoint) endpoints.now }
{
    endpoints.iter().position(|other| *other == endpoint)
}
