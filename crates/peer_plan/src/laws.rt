//! The laws of a plan.
ghost use Rattle.std.specs.Prelude.{◌≡◌, ◌≢◌, ◌==◌, ℕ, List, All, Ok, Err, Some, None, true, false};
ghost use Rattle.toml.specs.Data.{Members};
ghost use Rattle.peer_plan.specs.Fields.{value};
ghost use Rattle.peer_plan.specs.Plan.{begins, fits, IsLongest, IsNearest, PlanView};
ghost use Rattle.peer_plan.specs.Reading.{plan_format, plan_in, source_in};
ghost use Rattle.peer_plan.specs.declared.error.PlanError.TheVariants as error;
ghost use Rattle.peer_plan.specs.declared.key.Key.TheVariants as key;
ghost use Rattle.peer_plan.specs.declared.peer.Peer.{Peer};
ghost use Rattle.peer_plan.specs.declared.route.Route.{Route};

/// If no route has a source, the longest prefix leads for each caller; so in each plan of version 1 or 2. A law about
/// definitions, for provers; the call does nothing.
pub fn longest_prefixes_lead()
    ensures somewhere { (routes : List Route) (caller : ℕ) (text : List ℕ) (route : Route) →
        All (λ other. other.source ≡ None) routes → IsNearest false routes caller text route → IsLongest routes text route }
    ensures nowhere { (routes : List Route) (caller : ℕ) (text : List ℕ) →
        All (λ other. other.source ≡ None) routes → All (λ other. fits false caller text other ≡ false) routes →
        All (λ other. begins text other ≡ false) routes }
    ensures before { (format : ℕ) (peers : List Peer) (ms : Members) → format ≢ 4 → source_in format peers ms ≡ Ok None }
{}

/// In plan version 4, and only there, a call goes back to its caller only by a route with this caller as its source. A law
/// about definitions, for provers; the call does nothing.
pub fn returns_have_a_source()
    ensures back { (routes : List Route) (caller : ℕ) (text : List ℕ) (route : Route) →
        IsNearest true routes caller text route → route.peer ≡ caller → route.source ≡ Some caller }
    ensures version { (ms : Members) (format : ℕ) (plan : PlanView) →
        value ms key.Format (Err (error.Missing key.Format)) plan_format ≡ Ok format → plan_in ms ≡ Ok plan →
        plan.avoids_return ≡ (format == 4) }
{}
