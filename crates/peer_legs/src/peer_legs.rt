//! The legs of one peer, by their local numbers.
ghost use Rattle.std.specs.Option.{ForSome};
ghost use Rattle.std.specs.Prelude.{◌&&◌, nat_lt, nat_le, ◌≡◌, ◌+◌, ◌-◌, ◌^◌, ◌<◌, ◌≤◌, ◌↔◌, length, option_copied, count_by};
ghost use Rattle.std.specs.Prelude.{is_some};
ghost use Rattle.std.specs.Prelude.{replicate, slice_get, true, None, Some, IfOk, IfSome};
ghost use Rattle.std.specs.Prelude.{IsNone, IsSome, OnErr};
ghost use Rattle.call_signals.specs.declared.rules.PeerRules.{PeerRules};
ghost use Rattle.memory_requests.specs.Refused.{WasRefused};

use crate::named_leg::NamedLeg;
use crate::remote_index::RemoteIndex;
use call_book::{Lease, LegName};
use iax_frames::CallNumber;
use leg_machine::Leg;
use memory_requests::with_capacity;
use std::alloc::{AllocError, Global};
use std::marker::Model;

/// The legs of one peer, each found at once by its local number and by its remote number.
///
/// Readers find a leg or a place. The other calls add or remove a leg or, in `leg_steps.rt`, make a step of one, and leave
/// the other legs as they are. Only `new` takes memory for the legs as a whole; each leg's record takes memory for itself.
/// Contracts see the peer's place in the plan, the first of its local numbers, and the leg of each of its numbers.
#[derive(Drop)]
pub struct PeerLegs {
    peer: u16,
    first: u16,
    // By local number, from the first on.
    pub(crate) places: Vec<Option<NamedLeg>>,
    pub(crate) by_remote: RemoteIndex,
    // Before this moment no leg has ended or owes, and no tick has work.
    pub(crate) rest_until: u64,
}

impl Model for PeerLegs {
    ghost use Rattle.peer_legs.specs.Legs.{PeerLegs};

    ghost Value = { PeerLegs };

    ghost use Rattle.peer_legs.specs.LegsInside.{legs_of, IsSound};

    ghost view = { legs_of };

    ghost invariant = { IsSound };
}

// Returns `count` places without a leg.
fn no_legs(alloc: Global, count: u16) -> Result<Vec<Option<NamedLeg>>, AllocError>
    requires few { count ≤ 512 }
    ensures places { IfOk result (λ places. places.items ≡ replicate count None) }
    ensures no_memory { OnErr result WasRefused }
{
    let mut places = with_capacity(alloc, usize::from(count))?;
    for _ in 0..count {
        places.push_reserved(None);
    }
    Ok(places)
}

impl PeerLegs {
    ghost use Rattle.peer_legs.specs.Legs.{AreLegs, IsLegOf, AreLegsOf, leg_at, leg_named, leg_of_remote, has_remote};
    ghost use Rattle.peer_legs.specs.Legs.{filled, with_place};

    /// Returns a peer without a leg. It has `count` local numbers, 1 ..= 512, from the first on, all of them 1 ..= 32,767.
    /// Returns `Err` only if memory was refused.
    pub fn new(alloc: Global, peer: u16, first: u16, count: u16) -> Result<PeerLegs, AllocError>
        requires first { 1 ≤ first }
        requires some { 1 ≤ count }
        requires most { count ≤ 512 }
        requires within { first + count ≤ 2 ^ 15 }
        ensures legs { IfOk result (λ legs. legs ≡ record { peer = peer; first = first; places = replicate count None }) }
        ensures sound { IfOk result AreLegs }
        ensures ruled { IfOk result (λ legs. (rules : PeerRules) → AreLegsOf rules legs) }
        ensures no_memory { OnErr result WasRefused }
    {
        Ok(PeerLegs {
            peer,
            first,
            places: no_legs(alloc, count)?,
            by_remote: RemoteIndex::new(alloc)?,
            rest_until: 0,
        })
    }

    /// Returns the peer's place in the plan, from 0 on.
    pub fn peer(&self) -> u16
        ensures { result ≡ self.now.peer }
    {
        self.peer
    }

    /// Returns the first of the peer's local numbers, 1 ..= 32,767.
    pub fn first(&self) -> u16
        ensures { result ≡ self.now.first }
    {
        self.first
    }

    // Returns whether a local number is one of the peer's.
    pub(crate) fn has_number(&self, number: u16) -> bool
        ensures { result ≡ (nat_le self.now.first number && nat_lt number (self.now.first + length self.now.places)) }
    {
        self.first <= number && usize::from(number - self.first) < self.places.len()
    }

    /// Returns the count of local numbers, 1 ..= 512.
    pub fn count(&self) -> usize
        ensures count { result ≡ length self.now.places }
        ensures sound { AreLegs self.now }
    {
        // For the proof: the legs are sound.
        let _sound = &self.first;
        self.places.len()
    }

    /// Returns the count of local numbers that have a leg, 0 ..= 512.
    pub fn leg_count(&self) -> usize
        ensures count { result ≡ count_by is_some self.now.places }
        ensures most { result ≤ 512 }
    {
        let mut legs = 0;
        for place in &self.places {
            if place.is_some() {
                legs += 1;
            }
        }
        legs
    }

    /// Returns the leg of a local number, or `None` if there is none.
    pub fn get(&self, number: u16) -> Option<&NamedLeg>
        ensures leg { option_copied result ≡ leg_at self.now number }
        ensures sound { AreLegs self.now }
    {
        if self.first <= number {
            match self.places.get(usize::from(number - self.first)) {
                Some(place) => place.as_ref(),
                None => None,
            }
        } else {
            None
        }
    }

    /// Returns the call number of the leg that has this local number, 1 ..= 32,767.
    pub fn call_number(&self, number: u16) -> CallNumber
        requires { IsSome (leg_at self.now number) }
        ensures number { result ≡ number }
        ensures some { 1 ≤ result }
    {
        // For the proof: the number is one of the peer's, and so not 0.
        let _place = self.place_of(number);
        let _sound = self.count();
        CallNumber::new(number)
    }

    /// Returns the leg of a name, or `None` if there is none.
    pub fn named(&self, name: LegName) -> Option<&NamedLeg>
        ensures leg { option_copied result ≡ leg_named self.now name }
        ensures at { IfSome result (λ named. leg_at self.now name.number ≡ Some named.now) }
        ensures name { IfSome result (λ named. named.now.name ≡ name) }
        ensures sound { AreLegs self.now }
    {
        match self.get(name.number) {
            Some(named) => {
                if named.name() == name {
                    Some(named)
                } else {
                    None
                }
            }
            None => None,
        }
    }

    /// Returns the local number of the leg that has a remote number, or `None` if no leg has it.
    pub fn of_remote(&self, remote: CallNumber) -> Option<u16>
        ensures found { IfSome result (λ number. leg_at self.now number ≡ leg_of_remote self.now remote) }
        ensures remote { IfSome result (λ number. has_remote (leg_at self.now number) remote ≡ true) }
        ensures none { IsNone result ↔ (leg_of_remote self.now remote ≡ None) }
        ensures sound { AreLegs self.now }
    {
        self.by_remote.get(remote)
    }

    /// Returns the place of a local number that a leg has among the peer's, 0 ..= 511.
    pub fn place_of(&self, number: u16) -> usize
        requires { IsSome (leg_at self.now number) }
        ensures from { self.now.first ≤ number }
        ensures place { result ≡ number - self.now.first }
        ensures few { result < 512 }
        ensures within { result < length self.now.places }
        ensures leg { filled (slice_get self.now.places result) ≡ leg_at self.now number }
    {
        usize::from(number - self.first)
    }

    /// Adds a leg under the name of its lease. The name is one of this peer's, its number is the leg's and has no leg yet,
    /// and no leg has the remote number.
    pub fn insert(&mut self, lease: Lease, leg: Leg)
        requires peer { lease.peer ≡ self.old.peer }
        requires first { self.old.first ≤ lease.number }
        requires within { lease.number < self.old.first + length self.old.places }
        requires number { leg.state.number ≡ lease.number }
        requires empty { leg_at self.old lease.number ≡ None }
        requires remote { ForSome leg.state.remote (λ remote. leg_of_remote self.old remote ≡ None) }
        ensures legs { self.new ≡ with_place self.old lease.number (Some (record { name = lease; leg = leg.state })) }
        ensures there { leg_at self.new lease.number ≡ Some (record { name = lease; leg = leg.state }) }
        ensures sound { AreLegs self.new }
        ensures ruled { (rules : PeerRules) → AreLegsOf rules self.old → IsLegOf rules leg.state → AreLegsOf rules self.new }
    {
        let number = lease.name().number;
        self.by_remote.note(leg.remote(), Some(number));
        let named = NamedLeg { lease, leg };
        self.rest_until = self.rest_until.min(named.rest_until());
        self.places[usize::from(number - self.first)] = Some(named);
    }

    /// Removes and returns the leg of a local number, which has one.
    pub fn take(&mut self, number: u16) -> NamedLeg
        requires { IsSome (leg_at self.old number) }
        ensures leg { leg_at self.old number ≡ Some result }
        ensures legs { self.new ≡ with_place self.old number None }
        ensures sound { AreLegs self.new }
        ensures ruled { (rules : PeerRules) → AreLegsOf rules self.old → AreLegsOf rules self.new }
    {
        let index = self.place_of(number);
        let Some(named) = self.places[index].take() else {
            unreachable!()
        };
        self.by_remote.note(named.leg.remote(), None);
        named
    }
}
