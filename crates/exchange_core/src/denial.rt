//! The reason why the first step of a call was refused.
ghost use Rattle.std.specs.Prelude.{◌≡◌, ◌⊎◌, IfNone, IfSome, Some, option_map};
ghost use Rattle.call_control.specs.Beginnings.{OfDatagram, OfTick, OfCall, OfHangUp};
ghost use Rattle.exchange_core.specs.Denial.{Denies, denial_of};
ghost use Rattle.exchange_core.specs.Refusals.{from_call};
ghost use Rattle.exchange_core.specs.declared.denial.Denial.TheVariants as Denial;

use crate::answers::{CallError, Refusal};
use call_control::Reply;
use peer_lock::OrderError;

/// The reason why the first step of a call was refused.
#[derive(Clone, Copy)]
pub(crate) enum Denial {
    /// A datagram, a tick or a call from outside.
    Call(Refusal),
    /// A hang-up.
    Order(OrderError),
}

impl Denial {
    // Returns the denial of a first step by an answer, or `None` if the answer isn't a refusal.
    pub(crate) fn of(reply: &Reply) -> Option<Denial>
        ensures { result ≡ denial_of reply.now }
    {
        match reply {
            Reply::Datagram(Err(error)) => match Refusal::of_datagram(*error) {
                Some(refusal) => Some(Denial::Call(refusal)),
                None => None,
            },
            Reply::RejectNew(Err(error)) => Some(Denial::Call(Refusal::from(*error))),
            Reply::OpenIn(Err(error)) | Reply::OpenOut(Err(error)) => {
                Some(Denial::Call(Refusal::from(*error)))
            }
            Reply::Reserve(Err(error)) => Some(Denial::Call(Refusal::from(*error))),
            Reply::Tick(Err(_)) => Some(Denial::Call(Refusal::StepsSpent)),
            Reply::Order(Err(error)) => Some(Denial::Order(*error)),
            _ => None,
        }
    }

    // Returns the refusal of a datagram or a tick, or `None` if neither is refused for that reason.
    pub(crate) fn of_peer(self) -> Option<Refusal>
        ensures some { IfSome result (λ refusal. self ≡ Denial.Call refusal) }
        ensures none { IfNone result (Denies (Some OfDatagram) self ⊎ Denies (Some OfTick) self → ⊥) }
    {
        match self {
            Denial::Call(refusal) => Some(refusal),
            Denial::Order(_) => None,
        }
    }

    // Returns the reason why no call was placed, or `None` if no call is refused for it.
    pub(crate) fn of_call(self) -> Option<CallError>
        ensures some { IfSome result (λ error. option_map Denial.Call (from_call error) ≡ Some self) }
        ensures none { IfNone result (Denies (Some OfCall) self → ⊥) }
    {
        match self {
            Denial::Call(Refusal::SerialsSpent) => Some(CallError::SerialsSpent),
            Denial::Call(Refusal::NoNumber) => Some(CallError::NoNumber),
            Denial::Call(Refusal::StepsSpent) => Some(CallError::StepsSpent),
            Denial::Call(Refusal::NumberBusy) => Some(CallError::NumberBusy),
            Denial::Call(Refusal::Memory) => Some(CallError::Memory),
            _ => None,
        }
    }

    // Returns the refusal of a hang-up, or `None` if no hang-up is refused for that reason.
    pub(crate) fn of_hang_up(self) -> Option<OrderError>
        ensures some { IfSome result (λ error. self ≡ Denial.Order error) }
        ensures none { IfNone result (Denies (Some OfHangUp) self → ⊥) }
    {
        match self {
            Denial::Order(error) => Some(error),
            Denial::Call(_) => None,
        }
    }
}
