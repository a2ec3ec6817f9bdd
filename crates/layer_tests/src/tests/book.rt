//! The book of calls.
use crate::tests::same::same;
use call_book::{BridgeError, CallBook, Lease, PeerId, ReserveError};
use std::process::Abort;

// Returns the number of the next lease of the first peer, which is never returned.
fn next_number(book: &mut CallBook) -> Result<u16, ReserveError> {
    match book.reserve(PeerId::new(0)) {
        Ok(lease) => Ok(lease.name().number),
        Err(error) => Err(error),
    }
}

#[test]
fn numbers_until_serials_are_spent(rt: HostRuntime) {
    let mut book = CallBook::new(rt.alloc(), &[2], u64::MAX - 2).expect(&rt, "a book");
    let found = [
        next_number(&mut book),
        next_number(&mut book),
        next_number(&mut book),
    ];
    same(
        &rt,
        &found,
        &[Ok(1), Ok(2), Err(ReserveError::SerialsSpent)],
    );
}

// Returns the next lease of the first peer, under this number.
fn lease_of(rt: &impl Abort, book: &mut CallBook, number: u16) -> Lease {
    let lease = book.reserve(PeerId::new(0)).expect(rt, "a number");
    same(rt, &lease.name().number, &number);
    lease
}

// Returns a lease to the book; it had no partner.
fn frees(rt: &impl Abort, book: &mut CallBook, lease: Lease) {
    same(rt, &book.release(lease).ok(), &Some(None));
}

#[test]
fn numbers_and_bridges(rt: HostRuntime) {
    let mut book = CallBook::new(rt.alloc(), &[2], 0).expect(&rt, "a book");
    let one = lease_of(&rt, &mut book, 1);
    let two = lease_of(&rt, &mut book, 2);
    let former = two.name();
    same(&rt, &next_number(&mut book), &Err(ReserveError::NoNumber));
    frees(&rt, &mut book, two);
    frees(&rt, &mut book, one);
    let name = lease_of(&rt, &mut book, 2).name();
    let found = [book.bridge(name, name), book.bridge(name, former)];
    same(
        &rt,
        &found,
        &[Err(BridgeError::Same), Err(BridgeError::Stale)],
    );
}
