//! Workers that share an endpoint.
ghost use Rattle.std.specs.Prelude.{◌≡◌, ◌≤◌, length};
ghost use Rattle.udp_wires.specs.Sharing.{is_among, sharing_among, sharing_of};

use peer_plan::{Endpoint, WorkerId};

/// Whether other workers of a plan have a worker's endpoint too.
#[derive(Clone, Copy, Debug, PartialEq, Eq)]
pub enum Sharing {
    /// None has it, and nobody else can be bound there.
    Alone,
    /// Others have it, and this one is the first of them. It is bound while it is alone, and then lets the others be bound
    /// next to it.
    First,
    /// One before it has it.
    Beside,
}

fn is_among(workers: &[Endpoint], at: Endpoint) -> bool
    ensures { result ≡ is_among workers.now at }
{
    workers.iter().any(|other| *other == at)
}

impl Sharing {
    fn among(before: &[Endpoint], others: &[Endpoint]) -> Sharing
        ensures { result ≡ sharing_among before.now others.now }
    {
        let Some((at, behind)) = others.split_first() else {
            return Sharing::Alone;
        };
        if is_among(before, *at) {
            Sharing::Beside
        } else if is_among(behind, *at) {
            Sharing::First
        } else {
            Sharing::Alone
        }
    }

    /// Returns whether other workers of the plan have this worker's endpoint, before it or behind it. For the place behind
    /// the last worker it returns `Alone`.
    pub fn of(workers: &[Endpoint], worker: WorkerId) -> Sharing
        requires { worker ≤ length workers.now }
        ensures { result ≡ sharing_of workers.now worker }
    {
        let (before, others) = workers.split_at(worker.index());
        Sharing::among(before, others)
    }
}
