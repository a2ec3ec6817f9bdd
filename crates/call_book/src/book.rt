//! The book of calls.
ghost use Rattle.std.specs.Option.{ForSome};
ghost use Rattle.std.specs.Prelude.{◌≡◌, ◌<◌, ◌≤◌, ◌+◌, ◌^◌, ◌↔◌, All, length, Some, None, Ok, Err, IsTrue, IsErr, OnOk, OnErr};
ghost use Rattle.std.specs.Prelude.{IfOk, IfErr, IfSome, true, false};
ghost use Rattle.call_book.specs.Book.{unbridged};
ghost use Rattle.memory_requests.specs.Refused.{WasRefused};

use crate::errors::{BridgeError, ReserveError, Stale};
use crate::lease::Lease;
use crate::leg_name::LegName;
use crate::name_table::NameTable;
use crate::peer_id::PeerId;
use crate::ranges::numbers_from;
use memory_requests::{copied, push, with_capacity};
use std::alloc::{AllocError, Global};
use std::collections::VecDeque;
use std::marker::Model;

/// The leg of each number, the bridges, and the free numbers.
///
/// `new` takes all of its memory; each other call makes a fixed number of look-ups. Every number of a peer's range is
/// either free or has one name, which `reserve` gave out and no `release` took back.
#[derive(Drop)]
pub struct CallBook {
    counts: Vec<u16>,
    // By number.
    names: NameTable,
    partners: NameTable,
    // By peer. Each has room for all numbers of its peer.
    free: Vec<VecDeque<u16>>,
    next: u64,
}

impl Model for CallBook {
    ghost use Rattle.call_book.specs.Book.{Book, book_code};

    ghost Value = { Book };

    ghost coded = { book_code };

    ghost use Rattle.call_book.specs.Inside.{book_of, IsSound};

    ghost view = { book_of };

    ghost invariant = { IsSound };
}

impl CallBook {
    ghost use Rattle.std.specs.FinMap.{get};
    ghost use Rattle.call_book.specs.Book.{IsBook, IsNumberOf, IsCount, fresh_book, has_name, is_same, reserve_answer};
    ghost use Rattle.call_book.specs.Book.{after_reserve, bridge_answer, bridged, partner_of, released};

    /// Returns a book of as many peers as there are counts (1 to 32). The peer at place i has the next `counts[i]` numbers
    /// (1 to 512), from 1 on. All of them are free. The first name has the serial `first_serial`. Returns `Err` only if
    /// memory was refused.
    pub fn new(alloc: Global, counts: &[u16], first_serial: u64) -> Result<CallBook, AllocError>
        requires some { 1 ≤ length counts.now }
        requires peers { length counts.now ≤ 32 }
        requires counts { All IsCount counts.now }
        ensures fresh { IfOk result (λ book. book ≡ fresh_book counts.now first_serial) }
        ensures sound { IfOk result IsBook }
        ensures no_memory { OnErr result WasRefused }
    {
        let mut free = with_capacity(alloc, counts.len())?;
        let mut first = 1;
        for &count in counts {
            push(&mut free, numbers_from(alloc, first, count)?)?;
            first += count;
        }
        let places = usize::from(first);
        Ok(CallBook {
            counts: copied(alloc, counts)?,
            names: NameTable::new(alloc, places)?,
            partners: NameTable::new(alloc, places)?,
            free,
            next: first_serial,
        })
    }

    /// Reserves the peer's number that was freed longest ago, at first in ascending order, under the next serial.
    ///
    /// Refusals are checked in this order. `SerialsSpent`: the next serial would be 2^64 - 1. `NoNumber`: no number of the
    /// peer is free, or the book doesn't know the peer.
    pub fn reserve(&mut self, peer: PeerId) -> Result<Lease, ReserveError>
        ensures answer { result ≡ reserve_answer self.old peer }
        ensures book { self.new ≡ after_reserve self.old peer }

        // The name is one of the peer's, and its number served no other.
        ensures range { IfOk result (λ lease. (lease.peer ≡ peer) × IsNumberOf self.old.counts peer lease.number) }
        ensures unused { IfOk result (λ lease. get self.old.names lease.number ≡ None) }
        ensures counts { self.new.counts ≡ self.old.counts }
        ensures sound { IsBook self.new }
    {
        if self.next == u64::MAX {
            return Err(ReserveError::SerialsSpent);
        }
        let place = peer.index();
        if place >= self.free.len() || self.free[place].is_empty() {
            return Err(ReserveError::NoNumber);
        }
        let queue = &mut self.free[place];
        let number = queue.pop_front().unwrap();
        let name = LegName {
            peer: peer.get(),
            number,
            serial: self.next,
        };
        self.names.put(number, name);
        self.next += 1;
        Ok(Lease::on(name))
    }

    /// The serial of the next name.
    pub fn next_serial(&self) -> u64
        ensures { result ≡ self.now.next }
    {
        self.next
    }

    /// Returns whether the book has exactly this name.
    pub fn contains(&self, name: LegName) -> bool
        ensures found { result ≡ has_name self.now name }
        ensures sound { IsBook self.now }
    {
        match self.names.get(name.number) {
            Some(found) => found == name,
            None => false,
        }
    }

    /// Returns the partner of a name, or `None` if the book hasn't the name or it isn't bridged.
    pub fn partner(&self, name: LegName) -> Option<LegName>
        ensures partner { result ≡ partner_of self.now name }
        ensures mutual { IfSome result (λ partner. partner_of self.now partner ≡ Some name) }
        ensures sound { IsBook self.now }
    {
        if self.contains(name) {
            self.partners.get(name.number)
        } else {
            None
        }
    }

    /// Makes two names partners of each other.
    ///
    /// Refusals are checked in this order: `Same` if they are one name, `Stale` if the book hasn't one of them, `Bridged`
    /// if one has a partner already; then nothing is changed.
    pub fn bridge(&mut self, a: LegName, b: LegName) -> Result<(), BridgeError>
        ensures answer { result ≡ bridge_answer self.old a b }
        ensures ok { OnOk result (self.new ≡ bridged self.old a b) }
        ensures err { OnErr result (self.new ≡ self.old) }
        ensures mutual { OnOk result ((partner_of self.new a ≡ Some b) × (partner_of self.new b ≡ Some a)) }
        ensures sound { OnOk result (IsBook self.new) }
    {
        if a == b {
            return Err(BridgeError::Same);
        }
        if !self.contains(a) {
            return Err(BridgeError::Stale);
        }
        if !self.contains(b) {
            return Err(BridgeError::Stale);
        }
        if self.partners.get(a.number).is_some() {
            return Err(BridgeError::Bridged);
        }
        if self.partners.get(b.number).is_some() {
            return Err(BridgeError::Bridged);
        }
        self.partners.put(a.number, b);
        self.partners.put(b.number, a);
        Ok(())
    }

    /// Takes a name back: its number is free again, behind the peer's other free numbers, and its bridge ends on both
    /// sides. Returns the former partner.
    ///
    /// Returns `Stale` if and only if the book hasn't the name; the lease comes back.
    pub fn release(&mut self, lease: Lease) -> Result<Option<LegName>, (Lease, Stale)>
        ensures stale { IsErr result ↔ (has_name self.old lease ≡ false) }
        ensures partner { IfOk result (λ partner. partner ≡ partner_of self.old lease) }
        ensures ok { OnOk result (self.new ≡ released self.old lease) }

        // The name is gone, and its former partner has none.
        ensures gone { OnOk result (has_name self.new lease ≡ false) }
        ensures parted { IfOk result (λ former. IfSome former (λ partner. partner_of self.new partner ≡ None)) }

        ensures lease { IfErr result (λ back. back.0 ≡ lease) }
        ensures err { OnErr result (self.new ≡ self.old) }
        ensures sound { IsBook self.new }
    {
        let name = lease.name();
        if !self.contains(name) {
            return Err((lease, Stale));
        }
        let former = self.partners.get(name.number);
        unbridge(&mut self.partners, name.number, former);
        self.names.clear(name.number);
        self.free[usize::from(name.peer)].push_back_reserved(name.number);
        Ok(former)
    }
}

// Ends the bridge between the leg of a number and its partner, if it has one.
fn unbridge(partners: &mut NameTable, number: u16, partner: Option<LegName>)
    requires number { number < partners.old.places }
    requires partner { ForSome partner (λ partner. partner.number < partners.old.places) }
    ensures { partners.new ≡ record partners.old { names = unbridged partners.old.names number partner } }
{
    if let Some(partner) = partner {
        partners.clear(number);
        partners.clear(partner.number);
    }
}
