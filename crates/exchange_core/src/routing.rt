//! Where offered calls lead.
ghost use Rattle.std.specs.Prelude.{◌≡◌, length, Some, option_copied};
ghost use Rattle.call_control.specs.declared.need.Need.TheVariants as needs;
ghost use Rattle.call_control.specs.declared.reply.Reply.TheVariants as replies;
ghost use Rattle.exchange_core.specs.Routes.{IsRoute, LeadsInside, format_for, hardens, may_call};
ghost use Rattle.exchange_core.specs.Traces.{Makes, call_of};
ghost use Rattle.exchange_core.specs.declared.resources.Given.{Given as GivenValue};

use crate::exchange::Exchange;
use crate::gate::Gate;
use call_book::{LegName, PeerId};
use call_control::Route;
use call_signals::are_printable;
use leg_machine::{Format, Formats};
use peer_lock::{LedgerSet, Offer};
use peer_plan::Plan;
use step_log::Pass;

// Returns the format of an offered call at a target with these formats.
pub(crate) fn format_for(offer: &Offer, formats: Formats) -> Option<Format>
    ensures { result ≡ format_for offer.now formats }
{
    offer.formats.of_both(formats).among(offer.format)
}

// Returns whether the legs of a peer of the plan are hardened.
fn hardens(plan: &Plan, peer: PeerId) -> bool
    ensures { result ≡ hardens plan.now peer }
{
    if peer.get() < plan.peer_count() {
        plan.rules(peer).is_hardened
    } else {
        false
    }
}

// Returns whether the caller's peer may call a number: in plan version 4 one of octets 0x20 ..= 0x7e.
fn may_call(plan: &Plan, caller: PeerId, number: &[u8]) -> bool
    ensures { result ≡ may_call plan.now caller number.now }
{
    !hardens(plan, caller) || are_printable(number)
}

// Returns the route of an offered call of a peer.
fn route_for(plan: &Plan, caller: PeerId, offer: &Offer) -> Route
    ensures route { IsRoute plan.now caller (Some offer.now) result }
    ensures inside { LeadsInside result (length plan.now.peers) }
{
    if !may_call(plan, caller, offer.called.as_slice()) {
        return Route::BadNumber;
    }
    let Some(peer) = plan.route(caller, offer.called.as_slice()) else {
        return Route::Nowhere;
    };
    let peer = PeerId::new(peer);
    match format_for(offer, plan.rules(peer).formats) {
        Some(format) => Route::To(peer, format),
        None => Route::WithoutFormat,
    }
}

// Returns the route of the call that a leg of a peer offers.
fn route(plan: &Plan, caller: PeerId, offer: Option<&Offer>) -> Route
    ensures route { IsRoute plan.now caller (option_copied offer.entry) result }
    ensures inside { LeadsInside result (length plan.now.peers) }
{
    match offer {
        Some(offer) => route_for(plan, caller, offer),
        None => Route::Nowhere,
    }
}

impl<G: Gate, J: LedgerSet> Exchange<G, J> {
    // Returns the route of the call that this leg offers. It needs no locked state.
    pub(crate) fn route_noted(
        &self,
        pass: &mut Pass<J>,
        offered: LegName,
        offer: Option<&Offer>,
    ) -> Route
        ensures noted { (given : GivenValue) →
            Makes (call_of self.now given) (option_copied offer.entry) (needs.Route offered)
            (replies.Route result) pass.old pass.new }
        ensures credit { pass.new.credit ≡ pass.old.credit }
        ensures inside { LeadsInside result (length self.now.peers) }
    {
        pass.note_unasked();
        route(&self.plan, offered.owner(), offer)
    }
}
