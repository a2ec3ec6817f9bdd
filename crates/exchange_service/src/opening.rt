//! The opening of a service's exchange.
ghost use Rattle.std.specs.Prelude.{◌≡◌, ◌+◌, ◌≤◌, IfOk, length};

use media_ledger::Blank;
use peer_plan::Plan;
use std::random::RandomSource;
use std::time::{Clock, Instant};
use worker_setup::{ServiceError, first_serial, with_drawn, with_spare_pass};

/// The values from which the exchange of a service is opened, and the moment of the opening.
#[derive(Drop)]
pub(crate) struct Opening {
    pub(crate) plan: Plan,
    pub(crate) octets: Blank,
    pub(crate) steps: Blank,
    /// The serial of its first leg.
    pub(crate) first_serial: u64,
    pub(crate) opened: Instant,
}

impl Opening {
    /// Returns the opening of an exchange of this plan, with a pass for the control socket, and with values that are drawn from
    /// the system's entropy.
    ///
    /// Returns `Clock` if the clock can't be read, and `Entropy` if the system gives no random octets.
    pub(crate) fn of<R: Clock + RandomSource>(rt: &R, plan: Plan) -> Result<Opening, ServiceError>
        ensures workers { IfOk result (λ opening. opening.plan.workers ≡ plan.workers) }
        ensures enough { IfOk result (λ opening. length opening.plan.workers + 1 ≤ opening.plan.passes) }
        ensures octets { IfOk result (λ opening.
            opening.octets.parts ≡ length opening.plan.peers + opening.plan.passes) }
        ensures steps { IfOk result (λ opening. opening.steps.parts ≡ length opening.plan.peers + opening.plan.passes) }
    {
        let Ok(opened) = Instant::now(rt) else {
            return Err(ServiceError::Clock);
        };
        let first_serial = match first_serial(rt) {
            Ok(serial) => serial,
            Err(error) => return Err(error),
        };
        let plan = match with_drawn(rt, with_spare_pass(plan)) {
            Ok(plan) => plan,
            Err(error) => return Err(error),
        };
        let parts = u64::from(plan.peer_count()) + u64::from(plan.passes());
        Ok(Opening {
            plan,
            octets: Blank::new(parts),
            steps: Blank::new(parts),
            first_serial,
            opened,
        })
    }
}
