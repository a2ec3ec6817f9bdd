//! The datagram that was received and isn't handled yet.
ghost use Rattle.std.specs.Prelude.{◌≡◌, ◌↔◌, IsSome, IsTrue, option_map};
ghost use Rattle.peer_plan.specs.declared.endpoint.Endpoint.{Endpoint};
ghost use Rattle.udp_wires.specs.Counts.{RiseAlike, RisesBy};

use peer_plan::Endpoint;
use std::marker::Model;
use udp_wires::{Wire, WireFault};

// The longest datagram is 2,048 octets; one more shows that a datagram is longer.
const OCTETS: usize = 2049;

// A place for one datagram between its receipt and its handling. A turn leaves a datagram that doesn't fit any more here
// for the next turn.
#[derive(Drop)]
pub(crate) struct Inbox {
    octets: [u8; OCTETS],
    len: usize,
    // The sender; none if no datagram is here.
    from: Option<Endpoint>,
    // The number of datagrams received, modulo 2^64.
    given: u64,
}

impl Model for Inbox {
    ghost use Rattle.std.specs.Prelude.{◌≤◌, option_map, take};
    ghost use Rattle.udp_workers.specs.Intake.{InboxView};

    ghost Value = { InboxView };

    ghost view = { λ inbox. record {
      datagram = option_map (λ from. record { endpoint = from; octets = take inbox.len inbox.octets }) inbox.from;
      given = inbox.given;
    } };

    ghost invariant = { λ inbox. inbox.len ≤ 2049 };
}

impl Inbox {
    ghost use Rattle.std.specs.Prelude.{if◌then◌else◌, is_ok, OnErr};
    ghost use Rattle.udp_workers.specs.Intake.{Fills, waiting};

    // Returns an empty place.
    pub(crate) fn new() -> Inbox
        ensures { result ≡ record { datagram = None; given = 0 } }
    {
        Inbox {
            octets: [0; OCTETS],
            len: 0,
            from: None,
            given: 0,
        }
    }

    // Returns whether a datagram is here.
    pub(crate) fn is_full(&self) -> bool
        ensures { IsTrue result ↔ IsSome self.now.datagram }
    {
        self.from.is_some()
    }

    // Receives a datagram if one is available, unless one is here already. Returns `WireFault` if the call of the wire
    // failed.
    #[tactic(auto, using(crate::proofs::IntakeLaws::fills_still, crate::proofs::IntakeLaws::fills_not, crate::proofs::IntakeLaws::fills_one))]
    pub(crate) fn fill<W: Wire>(&mut self, wire: &mut W) -> Result<(), WireFault>
        ensures kept { IsSome self.old.datagram → self.new ≡ self.old }
        ensures fault { OnErr result (self.new.datagram ≡ None) }
        // A received datagram is here.
        ensures here { RiseAlike self.old.given self.new.given (waiting self.old.datagram) (waiting self.new.datagram) }
        ensures fills { Fills self.old.datagram self.new.datagram (W.came wire.old) (W.came wire.new) }
        ensures went { W.went wire.new ≡ W.went wire.old }
        ensures sent { W.sent wire.new ≡ W.sent wire.old }
        ensures given { W.given wire.new ≡ W.given wire.old }
        ensures given_to { (to : Endpoint) → W.given_to wire.new to ≡ W.given_to wire.old to }
        ensures failures { RisesBy (W.failures wire.old) (W.failures wire.new) (if is_ok result then 0 else 1) }
        ensures peers { W.peers wire.new ≡ W.peers wire.old }
    {
        if self.from.is_some() {
            return Ok(());
        }
        match wire.receive(&mut self.octets) {
            Ok(Some((len, from))) => {
                self.len = len;
                self.from = Some(from);
                self.given = self.given.wrapping_add(1);
                Ok(())
            }
            Ok(None) => Ok(()),
            Err(fault) => Err(fault),
        }
    }

    // Returns the datagram that is here, with its sender.
    pub(crate) fn datagram(&self) -> Option<(Endpoint, &[u8])>
        ensures { option_map (λ datagram. record { endpoint = datagram.0; octets = datagram.1.now }) result ≡ self.now.datagram }
    {
        match self.from {
            Some(from) => Some((from, &self.octets[..self.len])),
            None => None,
        }
    }

    // Removes the datagram that was handled.
    pub(crate) fn clear(&mut self)
        ensures { self.new ≡ record { datagram = None; given = self.old.given } }
    {
        self.from = None;
    }
}
