//! A socket for datagrams, as a trait.
ghost use Rattle.std.specs.Prelude.{◌≡◌, ◌≢◌, ◌+◌, ◌≤◌, ◌^◌, ℕ, List, [], ◌∷◌, ◌++◌, length, Contains, IfOk, IfSome, is_ok};
ghost use Rattle.std.specs.Prelude.{if◌then◌else◌};
ghost use Rattle.iax_frames.specs.Datagram.{IsFrame};
ghost use Rattle.peer_plan.specs.declared.endpoint.Endpoint.{Endpoint};
ghost use Rattle.udp_wires.specs.Counts.{RisesBy};
ghost use Rattle.udp_wires.specs.Parcels.{Parcel, gave, sent_by};

use peer_plan::Endpoint;

/// A call of a wire that failed.
#[derive(Clone, Copy, Debug, PartialEq, Eq)]
pub struct WireFault;

/// A socket for datagrams. Only `wait` waits.
///
/// Proofs know the datagrams that came from it, those that it was given, and those that it sent, in order (`Traffic`). It counts,
/// modulo 2^64,
/// the datagrams given to it, altogether and for each endpoint, and its failed calls.
pub trait Wire {
    /// The datagrams that its calls of `receive` gave, in order, each with its sender.
    ghost came: { Self → List Parcel };

    /// The datagrams that its calls of `send` were given, in order, each with the endpoint that it is for.
    ghost went: { Self → List Parcel };

    /// Those of them that it sent: the calls of `send` that returned true.
    ghost sent: { Self → List Parcel };

    /// The number of datagrams that it was given to send, modulo 2^64.
    ghost given: { Self → ℕ };

    /// The number of datagrams that it was given to send to an endpoint, modulo 2^64.
    ghost given_to: { Self → Endpoint → ℕ };

    /// The number of its calls that failed, modulo 2^64.
    ghost failures: { Self → ℕ };

    /// The endpoints that it may send to.
    ghost peers: { Self → List Endpoint };

    /// Writes the next datagram, if there is one, to the front of `octets`, and returns its length in octets and its
    /// sender. If the datagram is longer than `octets`, the rest is lost. Returns `WireFault` if the call failed.
    fn receive(&mut self, octets: &mut [u8]) -> Result<Option<(usize, Endpoint)>, WireFault>
        ensures within { IfOk result (λ found. IfSome found (λ datagram. datagram.0 ≤ length octets.new)) }
        ensures came { came self.new ≡ came self.old ++ gave result octets.new }
        ensures went { went self.new ≡ went self.old }
        ensures sent { sent self.new ≡ sent self.old }
        ensures given { given self.new ≡ given self.old }
        ensures given_to { (to : Endpoint) → given_to self.new to ≡ given_to self.old to }
        ensures failures { RisesBy (failures self.old) (failures self.new) (if is_ok result then 0 else 1) }
        ensures peers { peers self.new ≡ peers self.old };

    /// Sends a frame to one of the peers. Returns false if it would have to wait, and doesn't send it; `WireFault` if the
    /// call failed.
    fn send(&mut self, to: Endpoint, octets: &[u8]) -> Result<bool, WireFault>
        requires frame { IsFrame octets.now }
        requires peer { Contains (peers self.old) to }
        ensures came { came self.new ≡ came self.old }
        ensures went { went self.new ≡ went self.old ++ record { endpoint = to; octets = octets.now } ∷ [] }
        ensures sent { sent self.new ≡ sent self.old ++ sent_by result (record { endpoint = to; octets = octets.now }) }
        ensures given { RisesBy (given self.old) (given self.new) 1 }
        ensures to { RisesBy (given_to self.old to) (given_to self.new to) 1 }
        ensures others { (other : Endpoint) → other ≢ to → given_to self.new other ≡ given_to self.old other }
        ensures failures { RisesBy (failures self.old) (failures self.new) (if is_ok result then 0 else 1) }
        ensures peers { peers self.new ≡ peers self.old };

    /// Waits for a datagram, at most `ms` milliseconds. It may return earlier, and without one.
    fn wait(&mut self, ms: u64)
        ensures came { came self.new ≡ came self.old }
        ensures went { went self.new ≡ went self.old }
        ensures sent { sent self.new ≡ sent self.old }
        ensures given { given self.new ≡ given self.old }
        ensures given_to { (to : Endpoint) → given_to self.new to ≡ given_to self.old to }
        ensures failures { failures self.new ≡ failures self.old }
        ensures peers { peers self.new ≡ peers self.old };

    /// Returns the endpoints to which it may send. No call changes them.
    fn peers(&self) -> &[Endpoint]
        ensures { result.now ≡ peers self.now };

    /// Returns the number of datagrams that it was given to send, modulo 2^64: one more for each `send`.
    fn given(&self) -> u64
        ensures { result ≡ given self.now };

    /// Returns the number of datagrams that it was given to send to an endpoint, modulo 2^64: one more for each `send`
    /// there.
    fn given_to(&self, to: Endpoint) -> u64
        ensures { result ≡ given_to self.now to };

    /// Returns the number of failed calls, modulo 2^64: one more for each `WireFault`, and no others.
    fn failures(&self) -> u64
        ensures { result ≡ failures self.now };
}
