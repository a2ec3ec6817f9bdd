//! The legs of all numbers before and after a datagram, and those that it concerns.

use crate::tests::datagrams::Sent;
use crate::tests::desk::{Desk, peer_of};
use exchange_core::Gate;
use peer_lock::{LedgerSet, Status};
use std::sync::Wait;

/// The leg of a number, its status at the last look, and the number with which it is bridged; 0 if it isn't bridged.
#[derive(Clone, Copy)]
struct Place {
    number: u16,
    status: Option<Status>,
    before: Option<Status>,
    partner: u16,
}

/// The legs of the numbers 1 ..= 8.
#[derive(Clone, Copy)]
pub struct Legs {
    places: [Place; 8],
}

fn place_of(number: u16) -> Place {
    Place {
        number,
        status: None,
        before: None,
        partner: 0,
    }
}

impl Place {
    // Returns whether the leg has changed.
    fn has_changed(&self) -> bool {
        self.status != self.before
    }

    // Returns whether the number has a leg that it didn't have before.
    fn is_new(&self) -> bool {
        match (self.status, self.before) {
            (Some(status), Some(old)) => status.name != old.name,
            (Some(_), None) => true,
            _ => false,
        }
    }

    // Returns whether this is the number of a leg that has changed, or of the one with which it is bridged.
    fn is_of_call(&self, changed: &Place) -> bool {
        self.number == changed.number || self.number == changed.partner
    }

    // Returns whether the datagram concerns the leg: it is the destination's, or bridged with it; or bridged with a leg of
    // the sender.
    fn is_concerned(&self, sent: &Sent) -> bool {
        let is_partner_of_sender = self.partner != 0 && peer_of(self.partner) == sent.peer;
        if !sent.is_full() {
            return is_partner_of_sender;
        }
        let destination = sent.destination();
        if destination == 0 {
            peer_of(self.number) == sent.peer || is_partner_of_sender
        } else {
            self.number == destination || self.partner == destination
        }
    }
}

impl Legs {
    pub fn none() -> Legs {
        Legs {
            places: [
                place_of(1),
                place_of(2),
                place_of(3),
                place_of(4),
                place_of(5),
                place_of(6),
                place_of(7),
                place_of(8),
            ],
        }
    }

    /// Looks at all legs.
    pub fn look<R: Wait, G: Gate, J: LedgerSet>(&mut self, desk: &mut Desk<'_, R, G, J>) {
        for place in self.places.iter_mut() {
            place.before = place.status;
            place.status = desk.status(place.number);
        }
    }

    /// Returns whether no leg has changed.
    pub fn are_unchanged(&self) -> bool {
        for place in &self.places {
            if place.has_changed() {
                return false;
            }
        }
        true
    }

    // Returns the number of a new leg, other than this one, or 0 if there is none.
    fn other_new(&self, number: u16) -> u16 {
        for place in &self.places {
            if place.number != number && place.is_new() {
                return place.number;
            }
        }
        0
    }

    /// Pairs two legs that are new at once: they are bridged with each other.
    pub fn pair_new(&mut self) {
        let after = *self;
        for place in self.places.iter_mut() {
            if place.is_new() {
                place.partner = after.other_new(place.number);
            }
        }
    }

    // Returns whether a number has a leg.
    fn has(&self, number: u16) -> bool {
        for place in &self.places {
            if place.number == number {
                return place.status.is_some();
            }
        }
        false
    }

    /// Removes the partner of a leg that is gone, or whose partner is.
    pub fn part_gone(&mut self) {
        let after = *self;
        for place in self.places.iter_mut() {
            if place.status.is_none() || !after.has(place.partner) {
                place.partner = 0;
            }
        }
    }

    // Returns whether this leg is the only one that has changed, apart from the one with which it is bridged.
    fn is_alone(&self, changed: &Place) -> bool {
        for place in &self.places {
            if place.has_changed() && !place.is_of_call(changed) {
                return false;
            }
        }
        true
    }

    /// Returns whether a number of a peer has a leg that it didn't have before.
    pub fn has_new_of(&self, peer: u16) -> bool {
        for place in &self.places {
            if peer_of(place.number) == peer && place.is_new() {
                return true;
            }
        }
        false
    }

    /// Returns whether only legs that the datagram concerns have changed: for a full frame one, and the one with which it
    /// is bridged.
    pub fn differ_where_concerned(&self, sent: &Sent) -> bool {
        let is_full = sent.is_full();
        for place in &self.places {
            if place.has_changed()
                && (!place.is_concerned(sent) || (is_full && !self.is_alone(place)))
            {
                return false;
            }
        }
        true
    }
}
