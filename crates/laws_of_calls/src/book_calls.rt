//! The calls of the book, as steps of the stored exchange. Each function makes one call and nothing else, so that its
//! clauses describe that call.
ghost use Rattle.std.specs.Prelude.{◌≡◌, [], ◌∷◌};
ghost use Rattle.call_book.specs.Book.{after_bridge, after_release, after_reserve, bridge_answer, has_name, partner_of};
ghost use Rattle.call_book.specs.Book.{release_answer, reserve_answer};
ghost use Rattle.call_control.specs.declared.need.Need.TheVariants as needs;
ghost use Rattle.call_control.specs.declared.reply.Reply.TheVariants as replies;
ghost use Rattle.laws_of_calls.specs.PeerCalls.{leases_in};
ghost use Rattle.laws_of_calls.specs.StoredSteps.{leases_after};

use call_book::{CallBook, Lease, LegName, PeerId};
use call_control::Reply;

/// Reserves a new name of a peer in the book. Returns its lease if it succeeds. The answer has the refusals of
/// `CallBook::reserve`.
pub fn reserve(book: &mut CallBook, peer: PeerId) -> (Reply, Option<Lease>)
    ensures book { book.new ≡ after_reserve book.old peer }
    ensures answer { result.0 ≡ replies.Reserve (reserve_answer book.old peer) }
    ensures leases { leases_in result.1 ≡ leases_after (needs.Reserve peer) result.0 [] }
{
    match book.reserve(peer) {
        Ok(lease) => (Reply::Reserve(Ok(lease.name())), Some(lease)),
        Err(error) => (Reply::Reserve(Err(error)), None),
    }
}

/// Makes two names partners. The answer has the refusals of `CallBook::bridge`.
pub fn bridge(book: &mut CallBook, a: LegName, b: LegName) -> Reply
    ensures book { book.new ≡ after_bridge book.old a b (bridge_answer book.old a b) }
    ensures answer { result ≡ replies.Bridge (bridge_answer book.old a b) }
{
    Reply::Bridge(book.bridge(a, b))
}

/// Returns the partner of a name, if it has one.
pub fn partner(book: &CallBook, name: LegName) -> Reply
    ensures { result ≡ replies.Partner (partner_of book.now name) }
{
    Reply::Partner(book.partner(name))
}

/// Returns a lease to the book. A lease that the book refuses, as `Stale`, is dropped.
pub fn release(book: &mut CallBook, lease: Lease) -> Reply
    ensures book { book.new ≡ after_release book.old lease (has_name book.old lease) }
    ensures answer { result ≡ replies.Release (release_answer book.old lease (has_name book.old lease)) }
    ensures leases { leases_after (needs.Release lease) result (lease ∷ []) ≡ [] }
{
    match book.release(lease) {
        Ok(former) => Reply::Release(Ok(former)),
        Err((_, stale)) => Reply::Release(Err(stale)),
    }
}
