//! Numbers that are skipped, so that an exchange doesn't begin with the same ones each time.
ghost use Rattle.std.specs.Prelude.{◌≡◌, Err, IfNone, IfSome, Ok, Option, Result};
ghost use Rattle.call_book.specs.declared.errors.ReserveError.{ReserveError as ReserveErrorValue};
ghost use Rattle.call_book.specs.declared.errors.Stale.{Stale as StaleValue};
ghost use Rattle.call_book.specs.declared.leg_name.LegName.{LegName as LegNameValue};
ghost use Rattle.step_log.specs.Notes.{note};
ghost use Rattle.step_log.specs.declared.made.Made.TheVariants as mades;

use crate::exchange::Exchange;
use crate::gate::Gate;
use call_book::{LegName, PeerId};
use peer_lock::LedgerSet;
use std::sync::Wait;
use step_log::Pass;

impl<G: Gate, J: LedgerSet> Exchange<G, J> {
    /// Reserves a name of a peer and returns it at once, so that its number comes behind the peer's other free numbers.
    /// These are two steps of the book, and no step of the peer. Returns the name, or `None` if the book refused it.
    pub fn skip_number<R: Wait>(&self, rt: &R, pass: &mut Pass<J>, peer: PeerId) -> Option<LegName>
        ensures skipped { IfSome result (λ name. (former : Result (Option LegNameValue) StaleValue) ×
            (pass.new ≡ note (mades.Release name former) (note (mades.Reserve peer (Ok name)) pass.old))) }
        ensures none { IfNone result ((error : ReserveErrorValue) ×
            (pass.new ≡ note (mades.Reserve peer (Err error)) pass.old)) }
        ensures peer { IfSome result (λ name. name.peer ≡ peer) }
    {
        let reserved = self.book.lock(rt).reserve(pass, peer);
        match reserved {
            Ok(lease) => {
                let name = lease.name();
                let _former = self.book.lock(rt).release(pass, lease);
                Some(name)
            }
            Err(_) => None,
        }
    }
}
