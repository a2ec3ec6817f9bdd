//! The book of calls, under its lock.
ghost use Rattle.std.specs.Prelude.{◌≡◌, ◌↔◌, None, Some, false, IsErr, IfErr, IfOk, IfSome, OnErr, OnOk};
ghost use Rattle.std.specs.FinMap.{get};
ghost use Rattle.call_book.specs.Book.{IsBook, IsNumberOf, after_reserve, bridge_answer, bridged, has_name, partner_of, released};
ghost use Rattle.call_book.specs.Book.{reserve_answer};
ghost use Rattle.step_log.specs.Notes.{note, without_lease};
ghost use Rattle.step_log.specs.declared.made.Made.TheVariants as mades;

use crate::made::{Made, noted_answer, push};
use crate::pass::Pass;
use call_book::{BridgeError, CallBook, Lease, LegName, PeerId, ReserveError, Stale};
use peer_lock::LedgerSet;
use std::marker::Model;

/// The book of calls. Each of its steps is noted under the pass with which it is made. Contracts see it as the book.
pub struct NotedBook {
    book: CallBook,
}

// Written out, so that an owner proves one call at its drop, not the drop of each field.
impl Drop for NotedBook {
    fn drop(self) {
        let NotedBook { book: _ } = self;
    }
}

impl Model for NotedBook {
    ghost use Rattle.call_book.specs.Book.{Book, book_code};

    ghost Value = { Book };

    ghost coded = { book_code };

    ghost view = { λ b. b.book };
}

// Returns the name that was given, if one was.
fn named(answer: &Result<Lease, ReserveError>) -> Result<LegName, ReserveError>
    ensures { result ≡ answer.now }
{
    match answer {
        Ok(lease) => Ok(lease.name()),
        Err(error) => Err(*error),
    }
}

impl NotedBook {
    /// Returns the book. Each of its steps is noted from now on.
    pub fn new(book: CallBook) -> NotedBook
        ensures { result ≡ book }
    {
        NotedBook { book }
    }

    /// Reserves the peer's number that was freed longest ago, at first in ascending order, under the next serial, and notes
    /// the step.
    ///
    /// Refusals are checked in this order. `SerialsSpent`: the next serial would be 2^64 - 1. `NoNumber`: no number of the
    /// peer is free, or the book doesn't know the peer.
    #[tactic(auto, using(crate::proofs::Counted::steps_in_longer, crate::proofs::Stepping::with_longer))]
    pub fn reserve<J: LedgerSet>(
        &mut self,
        pass: &mut Pass<J>,
        peer: PeerId,
    ) -> Result<Lease, ReserveError>
        ensures answer { result ≡ reserve_answer self.old peer }
        ensures book { self.new ≡ after_reserve self.old peer }
        ensures noted { pass.new ≡ note (mades.Reserve peer result) pass.old }
        ensures range { IfOk result (λ lease. (lease.peer ≡ peer) × IsNumberOf self.old.counts peer lease.number) }
        ensures unused { IfOk result (λ lease. get self.old.names lease.number ≡ None) }
        ensures counts { self.new.counts ≡ self.old.counts }
        ensures sound { IsBook self.new }
    {
        let answer = self.book.reserve(peer);
        push(&mut pass.made, Made::Reserve(peer, named(&answer)));
        answer
    }

    /// Returns the partner of a name, or `None` if the book hasn't the name or it isn't bridged. Notes the step.
    #[tactic(auto, using(crate::proofs::Counted::steps_in_longer, crate::proofs::Stepping::with_longer))]
    pub fn partner<J: LedgerSet>(&self, pass: &mut Pass<J>, name: LegName) -> Option<LegName>
        ensures partner { result ≡ partner_of self.now name }
        ensures noted { pass.new ≡ note (mades.Partner name result) pass.old }
        ensures mutual { IfSome result (λ partner. partner_of self.now partner ≡ Some name) }
        ensures sound { IsBook self.now }
    {
        let answer = self.book.partner(name);
        push(&mut pass.made, Made::Partner(name, answer));
        answer
    }

    /// Makes two names partners of each other, and notes the step.
    ///
    /// Refusals are checked in this order: `Same` if they are one name, `Stale` if the book hasn't one of them, `Bridged`
    /// if one has a partner already; then the book is as before.
    #[tactic(auto, using(crate::proofs::Counted::steps_in_longer, crate::proofs::Stepping::with_longer))]
    pub fn bridge<J: LedgerSet>(
        &mut self,
        pass: &mut Pass<J>,
        a: LegName,
        b: LegName,
    ) -> Result<(), BridgeError>
        ensures answer { result ≡ bridge_answer self.old a b }
        ensures ok { OnOk result (self.new ≡ bridged self.old a b) }
        ensures err { OnErr result (self.new ≡ self.old) }
        ensures noted { pass.new ≡ note (mades.Bridge a b result) pass.old }
        ensures mutual { OnOk result ((partner_of self.new a ≡ Some b) × (partner_of self.new b ≡ Some a)) }
        ensures sound { OnOk result (IsBook self.new) }
    {
        let answer = self.book.bridge(a, b);
        push(&mut pass.made, Made::Bridge(a, b, answer));
        answer
    }

    /// Takes a name back: its number is free again, behind the peer's other free numbers, and its bridge ends on both
    /// sides. Returns the former partner, and notes the step.
    ///
    /// Returns `Stale` if and only if the book hasn't the name; the lease comes back, and the book is as before.
    #[tactic(auto, using(crate::proofs::Counted::steps_in_longer, crate::proofs::Stepping::with_longer))]
    pub fn release<J: LedgerSet>(
        &mut self,
        pass: &mut Pass<J>,
        lease: Lease,
    ) -> Result<Option<LegName>, (Lease, Stale)>
        ensures stale { IsErr result ↔ (has_name self.old lease ≡ false) }
        ensures partner { IfOk result (λ partner. partner ≡ partner_of self.old lease) }
        ensures ok { OnOk result (self.new ≡ released self.old lease) }
        ensures noted { pass.new ≡ note (mades.Release lease (without_lease result)) pass.old }
        ensures gone { OnOk result (has_name self.new lease ≡ false) }
        ensures parted { IfOk result (λ former. IfSome former (λ partner. partner_of self.new partner ≡ None)) }
        ensures lease { IfErr result (λ back. back.0 ≡ lease) }
        ensures err { OnErr result (self.new ≡ self.old) }
        ensures sound { IsBook self.new }
    {
        let name = lease.name();
        let answer = self.book.release(lease);
        push(&mut pass.made, Made::Release(name, noted_answer(&answer)));
        answer
    }

    /// Returns the serial of the next name, and notes the query.
    #[tactic(auto, using(crate::proofs::Counted::steps_in_longer, crate::proofs::Stepping::with_longer))]
    pub fn next_serial<J: LedgerSet>(&self, pass: &mut Pass<J>) -> u64
        ensures serial { result ≡ self.now.next }
        ensures noted { pass.new ≡ note (mades.NextSerial result) pass.old }
    {
        let serial = self.book.next_serial();
        push(&mut pass.made, Made::NextSerial(serial));
        serial
    }

    /// Returns the book itself.
    pub fn into_book(self) -> CallBook
        ensures { result ≡ self }
    {
        let NotedBook { book } = self;
        book
    }
}
