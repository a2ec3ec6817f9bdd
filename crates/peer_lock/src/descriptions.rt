//! Read-only queries of a leg and of a peer's accounts.
ghost use Rattle.std.specs.Prelude.{◌≡◌, ◌≤◌, IfSome, option_map};
ghost use Rattle.peer_accounts.specs.Accounts.{shown};
ghost use Rattle.peer_legs.specs.Legs.{leg_at};
ghost use Rattle.peer_lock.specs.Descriptions.{description_from, description_of};

use crate::pokes::Pokes;
use crate::state::PeerState;
use crate::steps::Status;
use iax_frames::CallNumber;
use leg_machine::{ElementText, Format};
use outbox::Losses;
use peer_accounts::{LedgerSet, Sums};
use peer_legs::NamedLeg;

/// A leg, with the values of its call.
#[derive(Debug, Drop)]
pub struct Description {
    /// Its status.
    pub status: Status,
    /// The format of the call.
    pub format: Format,
    /// The other side's call number, once it is known.
    pub remote: Option<CallNumber>,
    /// The moment at which it was opened, in milliseconds.
    pub opened: u64,
    /// The called number of the call's NEW.
    pub called: Option<ElementText>,
    /// The calling number of the call's NEW.
    pub calling: Option<ElementText>,
}

// Returns the description of a leg.
fn description_of(named: &NamedLeg) -> Description
    ensures { result ≡ description_of named.now }
{
    let leg = named.leg();
    let elements = leg.new_elements();
    Description {
        status: Status::of(named),
        format: leg.format(),
        remote: leg.remote(),
        opened: leg.opened(),
        called: ElementText::of(elements.called),
        calling: ElementText::of(elements.calling),
    }
}

impl<J: LedgerSet> PeerState<J> {
    /// Returns the leg of a local number, with the values of its call, or `None` if there is none. That is no step.
    pub fn describe(&self, number: u16) -> Option<Description>
        ensures { result ≡ option_map description_of (leg_at self.now.legs number) }
    {
        self.legs.get(number).map(|named| description_of(named))
    }

    /// Returns the leg with the least local number from this one on, with the values of its call, or `None` if there is none.
    /// The name in its status has its number. That is no step.
    pub fn describe_from(&self, number: u16) -> Option<Description>
        ensures leg { result ≡ description_from self.now.legs number }
        ensures from { IfSome result (λ leg. number ≤ leg.status.name.number) }
        ensures there { IfSome result (λ leg. result ≡ option_map description_of (leg_at self.now.legs leg.status.name.number)) }
    {
        match self.legs.next_from(number) {
            Some(named) => Some(description_of(named)),
            None => None,
        }
    }

    /// Returns the sums of the accounts. That is no step.
    pub fn sums(&self) -> Sums
        ensures sums { result ≡ shown self.now.accounts }
        ensures part { result.quelched ≤ result.dropped }
    {
        self.account.sums()
    }

    /// Returns the state of the exchange's POKEs to the peer. That is no step.
    pub fn pokes(&self) -> Pokes
        ensures { result ≡ self.now.pokes }
    {
        self.pokes
    }

    /// Returns the number of datagrams that a full outbox lost. That is no step.
    pub fn lost(&self) -> Losses
        ensures { result ≡ self.now.outbox.lost }
    {
        self.outbox.lost()
    }
}
