//! A pass for a client next to the workers.
ghost use Rattle.std.specs.Prelude.{◌≡◌, ◌+◌, ◌≤◌, length};

use peer_plan::Plan;

/// Returns the plan with at least one pass more than it has workers, for a client that reads the exchange next to them.
pub fn with_spare_pass(plan: Plan) -> Plan
    ensures passes { length result.workers + 1 ≤ result.passes }
    ensures same { result ≡ record plan { passes = result.passes } }
{
    let least = plan.workers().len() as u16 + 1;
    if plan.passes() >= least {
        return plan;
    }
    plan.with_passes(least)
}
