//! The datagrams that passed a wire, for proofs.
ghost use Rattle.std.specs.Prelude.{◌≡◌, [], ◌∷◌, ◌++◌};

use iax_frames::Octets;
use peer_plan::Endpoint;
use std::marker::Model;
use std::mem;
use std::snapshot::Snapshot;

/// The datagrams that passed a wire in one direction, in order, each with the endpoint at the other end. Contracts see them
/// as a list of parcels; at run time it is empty.
// A type that holds itself can't be proved to go to another thread; its snapshot can.
#[derive(Drop)]
pub struct Traffic {
    parcels: Snapshot<Parcels>,
}

// The parcels, in order.
#[cycle(parcels)]
#[derive(Drop)]
struct Parcels {
    end: Snapshot<Last>,
}

// The end of a list: the part before it, and its last parcel.
#[cycle(parcels)]
#[derive(Drop)]
enum Last {
    Nothing,
    After(Snapshot<Parcels>, Snapshot<Endpoint>, Octets),
}

impl Model for Parcels {
    ghost use Rattle.std.specs.Prelude.{List, length};
    ghost use Rattle.udp_wires.specs.Parcels.{Parcel};

    ghost Value = { List Parcel };

    ghost use Rattle.udp_wires.specs.Traffic.{parcels_at};

    ghost view = { λ t. parcels_at t.end.value };

    ghost size = { length };

    ghost use Rattle.std.proofs.Common.{arith, length-append};

    ghost size_decreases = { λ a h. Prim.grind (arith, length-append) };
}

impl Model for Traffic {
    ghost use Rattle.std.specs.Prelude.{List};
    ghost use Rattle.udp_wires.specs.Parcels.{Parcel};

    ghost Value = { List Parcel };

    ghost view = { λ t. t.parcels.value };
}

impl Traffic {
    /// Returns the empty list, for proofs.
    pub fn new() -> Traffic
        ensures { result ≡ [] }
    {
        let end = Snapshot::of(&Last::Nothing);
        Traffic {
            parcels: Snapshot::of(&Parcels { end }),
        }
    }

    /// Adds a datagram with its endpoint, which only proofs keep.
    pub fn add(&mut self, endpoint: Endpoint, octets: &[u8])
        ensures { self.new ≡ self.old ++ record { endpoint = endpoint; octets = octets.now } ∷ [] }
    {
        let before = mem::replace(self, Traffic::new()).parcels;
        let after = Last::After(before, Snapshot::of(&endpoint), Octets::of(octets));
        let end = Snapshot::of(&after);
        self.parcels = Snapshot::of(&Parcels { end });
    }
}

const _: () = prove!(std::mem::size_of::<Traffic>() == 0);
