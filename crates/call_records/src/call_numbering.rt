//! The serials of calls.
ghost use Rattle.std.specs.Prelude.{◌≡◌, ◌+◌, None, replicate, IfOk, unwrap_or};
ghost use Rattle.call_records.specs.Numbering as numbering;

use call_book::LegName;
use std::alloc::{AllocError, Global};
use std::marker::Model;

/// A leg, and the serial of its call.
#[derive(Clone, Copy)]
pub struct NotedLeg {
    pub name: LegName,
    pub call: u64,
}

/// Gives both legs of a call one serial.
///
/// When a leg is taken out, its partner loses its own. So the call of a leg is noted for its partner too, each under its
/// own name, and the order of the two doesn't matter. For each local number one leg is noted, the last. Only `new` takes
/// memory. Contracts see the noted legs, by local number, and the next serial.
#[derive(Drop)]
pub struct CallNumbering {
    noted: Vec<Option<NotedLeg>>,
    next: u64,
}

impl Model for CallNumbering {
    ghost use Rattle.call_records.specs.Numbering.{Numbering};

    ghost Value = { Numbering };

    ghost view = { λ n. record { noted = n.noted.items; next = n.next } };
}

impl CallNumbering {
    /// Returns a numbering without noted legs. The local numbers of the exchange are 1 ..= `numbers`, and the first call
    /// has the serial `first`.
    ///
    /// Returns `AllocError` if a request for memory was refused.
    pub fn new(alloc: Global, numbers: u16, first: u64) -> Result<CallNumbering, AllocError>
        ensures { IfOk result (λ n. n ≡ record { noted = replicate (numbers + 1) None; next = first }) }
    {
        Ok(CallNumbering {
            noted: vec![in alloc; None; usize::from(numbers) + 1]?,
            next: first,
        })
    }

    /// Returns the serial of the call of a leg that was taken out and had this partner until then. It is the serial noted
    /// for the leg, otherwise the one noted for its partner, otherwise the next. Serials wrap to 0 after 2^64 - 1.
    pub fn number_of(&mut self, name: LegName, partner: Option<LegName>) -> u64
        ensures call { result ≡ numbering.call_of self.old name partner }
        ensures after { self.new ≡ numbering.after_leg self.old name partner }
    {
        let known = known_call(self.noted.as_slice(), name, partner);
        let call = self.call_or_next(known);
        note(self.noted.as_mut_slice(), name, call);
        if let Some(partner) = partner {
            note(self.noted.as_mut_slice(), partner, call);
        }
        call
    }

    // Returns the serial of a known call, or the next one.
    fn call_or_next(&mut self, known: Option<u64>) -> u64
        ensures call { result ≡ unwrap_or known self.old.next }
        ensures next { self.new.next ≡ numbering.next_after known self.old.next }
        ensures noted { self.new.noted ≡ self.old.noted }
    {
        match known {
            Some(call) => call,
            None => {
                let call = self.next;
                self.next = call.wrapping_add(1);
                call
            }
        }
    }
}

// Returns the call that is noted for exactly this leg.
fn call_in(noted: &[Option<NotedLeg>], name: LegName) -> Option<u64>
    ensures { result ≡ numbering.noted_call noted.now name }
{
    match noted.get(usize::from(name.number)) {
        Some(Some(leg)) if leg.name == name => Some(leg.call),
        _ => None,
    }
}

// Returns the call that is noted for a leg, or otherwise the one noted for its partner.
fn known_call(noted: &[Option<NotedLeg>], name: LegName, partner: Option<LegName>) -> Option<u64>
    ensures { result ≡ numbering.known_by (numbering.noted_call noted.now name) (numbering.partner_call noted.now partner) }
{
    match call_in(noted, name) {
        Some(call) => Some(call),
        None => match partner {
            Some(partner) => call_in(noted, partner),
            None => None,
        },
    }
}

// Notes the call of a leg under its local number, if there is a place for it.
fn note(noted: &mut [Option<NotedLeg>], name: LegName, call: u64)
    ensures { noted.new ≡ numbering.with_leg noted.old name call }
{
    let place = usize::from(name.number);
    if place < noted.len() {
        noted[place] = Some(NotedLeg { name, call });
    }
}
