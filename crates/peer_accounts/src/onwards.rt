//! The signals that the legs of a peer hand up in one step.
ghost use Rattle.std.specs.Prelude.{◌≡◌, ◌≤◌, ◌+◌, ◌<◌, ◌++◌, ◌∷◌, [], ◌==◌, length, slice_get, option_copied, Option, None};
ghost use Rattle.std.specs.Prelude.{Some, OnOk, OnErr, max};
ghost use Rattle.memory_requests.specs.Refused.{WasRefused};

use call_book::LegName;
use leg_machine::{Caller, ElementText, Format, Formats, Signal};
use memory_requests::reserve;
use std::alloc::{AllocError, Global};
use std::marker::Model;

/// The offer of an offered call ("Call Setup").
#[derive(Drop)]
pub struct Offer {
    /// The called number, at most 255 octets; empty if it is absent.
    pub called: ElementText,
    /// The caller's elements that are carried on.
    pub caller: Caller,
    /// The format that the NEW alone chooses.
    pub format: Format,
    /// The formats that the call may have.
    pub formats: Formats,
}

/// The signals that the legs of a peer hand up in one step, in order, each with the leg's name; and the offer of an offered
/// call.
///
/// The caller of a step lends an empty list, reads it, and clears it for the next step. Its memory stays with it.
/// Contracts see the signals, the offer, and the room for further signals.
#[derive(Drop)]
pub struct Onwards {
    signals: Vec<(LegName, Signal)>,
    // At most one. It is separate, so that passing signals on costs little.
    offers: Vec<Offer>,
}

impl Model for Onwards {
    ghost use Rattle.std.specs.Prelude.{◌-◌, ◌≤◌, length, nat_le, slice_get, vec_capacity, if◌then◌else◌};
    ghost use Rattle.peer_accounts.specs.HandedUp.{HandedUp};

    ghost Value = { HandedUp };

    // If there is room for a signal, there is room for an offer, too.
    ghost view = { λ o. record {
      signals = o.signals.items;
      offer = slice_get o.offers.items 0;
      room = if nat_le 1 (vec_capacity o.offers) then vec_capacity o.signals - length o.signals.items else 0;
    } };

    ghost invariant = { λ o. length o.offers.items ≤ 1 };
}

impl Onwards {
    ghost use Rattle.peer_accounts.specs.HandedUp.{nothing};

    /// Returns an empty list, which has no memory yet.
    pub fn new(alloc: Global) -> Onwards
        ensures { result ≡ nothing 0 }
    {
        Onwards {
            signals: Vec::new(alloc),
            offers: Vec::new(alloc),
        }
    }

    /// Removes all signals and the offer.
    pub fn clear(&mut self)
        ensures signals { self.new.signals ≡ [] }
        ensures offer { self.new.offer ≡ None }
    {
        self.signals.clear();
        self.offers.clear();
    }

    /// Reserves room for `signals` more signals, 0 ..= 512, as many as a trunk frame has entries, and for an offer. Returns
    /// `Err` only if memory was refused; the signals and the offer stay as they are.
    pub fn reserve(&mut self, signals: usize) -> Result<(), AllocError>
        requires few { signals ≤ 512 }
        ensures signals { self.new.signals ≡ self.old.signals }
        ensures offer { self.new.offer ≡ self.old.offer }
        ensures room { OnOk result (signals ≤ self.new.room) }
        ensures full { OnErr result (self.old.offer ≡ None → self.old.room < max 1 signals) }
        ensures no_memory { OnErr result WasRefused }
    {
        reserve(&mut self.signals, signals)?;
        reserve(&mut self.offers, 1)
    }

    /// Returns the number of signals.
    pub fn len(&self) -> usize
        ensures { result ≡ length self.now.signals }
    {
        self.signals.len()
    }

    /// Returns whether there are no signals.
    pub fn is_empty(&self) -> bool
        ensures { result ≡ (length self.now.signals == 0) }
    {
        self.signals.len() == 0
    }

    /// Returns the signal at a place, 0 for the first, and the name of its leg, or `None` if there is none.
    pub fn get(&self, place: usize) -> Option<(LegName, Signal)>
        ensures { result ≡ slice_get self.now.signals place }
    {
        self.signals.get(place).copied()
    }

    /// Returns the offer of the offered call, if there is one.
    pub fn offer(&self) -> Option<&Offer>
        ensures { option_copied result ≡ self.now.offer }
    {
        self.offers.first()
    }

    /// Adds a signal behind the others; there is room for it.
    pub fn push(&mut self, name: LegName, signal: Signal)
        requires { 1 ≤ self.old.room }
        ensures signals { self.new.signals ≡ self.old.signals ++ (name, signal) ∷ [] }
        ensures offer { self.new.offer ≡ self.old.offer }
        ensures room { self.new.room + 1 ≡ self.old.room }
    {
        self.signals.push_reserved((name, signal));
    }

    /// Sets the offer of the offered call. There is room for one more signal.
    pub fn set_offer(&mut self, offer: Offer)
        requires { 1 ≤ self.old.room }
        ensures { self.new ≡ record self.old { offer = Some offer } }
    {
        if let Some(former) = self.offers.get_mut(0) {
            *former = offer;
        } else {
            self.offers.push_reserved(offer);
        }
    }
}
