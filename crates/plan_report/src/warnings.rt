//! Warnings of settings that may not be intended.
ghost use Rattle.std.specs.Prelude.{◌≡◌, ◌<◌, length};
ghost use Rattle.call_signals.specs.Format.{has_format};
ghost use Rattle.plan_report.specs.Warnings.{lacks};

use call_signals::{Format, Formats};
use peer_plan::{PeerId, Plan, format_name};
use plain_text::TextBuffer;

// Returns whether calls of one peer in a format are rejected by another.
fn lacks(caller: Formats, target: Formats, format: Format) -> bool
    ensures { result ≡ lacks caller target format }
{
    caller.contains(format) && !target.contains(format)
}

fn warn_of_credentials(plan: &Plan, peer: PeerId, report: &mut TextBuffer)
    requires { peer < length plan.now.peers }
{
    let name = plan.name(peer);
    let rules = plan.rules(peer);
    if rules.user.is_none() {
        report.text("warning: ");
        report.text(name);
        report.text(
            " has no user: an Asterisk takes our calls for a guest's, and asks for a call token\n",
        );
    }
    if rules.secret.is_none() {
        report.text("warning: ");
        report.text(name);
        report.text(" has no secret: whoever sends from its address can call\n");
    } else if rules.is_hardened && rules.call_tokens.is_none() {
        report.text("warning: ");
        report.text(name);
        report.text(" has a secret and no call_token: forged NEWs can take half of its numbers\n");
    }
}

// Which peers the routes lead to, each by its place. A plan has at most 32 peers.
#[derive(Drop)]
struct Targets {
    for_all: [bool; 32],
    // By the target, and then by the source.
    for_one: [[bool; 32]; 32],
}

// Looks at each route once.
fn targets_of(plan: &Plan) -> Targets {
    let mut targets = Targets {
        for_all: [false; 32],
        for_one: [[false; 32]; 32],
    };
    // (for the prover: a plan has at most 32 peers)
    let _count = plan.peer_count();
    for route in 0..plan.route_count() {
        let target = plan.target(route).index();
        match plan.source(route) {
            Some(source) => targets.for_one[target][source.index()] = true,
            None => targets.for_all[target] = true,
        }
    }
    targets
}

// Whether a route leads calls of a peer to another, or back to it.
fn reaches(targets: &Targets, caller: PeerId, target: PeerId) -> bool
    requires caller { caller < 32 }
    requires target { target < 32 }
{
    let target = target.index();
    targets.for_all[target] || targets.for_one[target][caller.index()]
}

// Whether a route for all takes calls of a peer. In plan version 4 one that leads to this peer doesn't.
fn calls_by_routes_for_all(targets: &Targets, caller: PeerId, avoids_return: bool) -> bool {
    for (target, is_led_to) in targets.for_all.iter().enumerate() {
        let is_return = target == caller.index();
        if *is_led_to && !(avoids_return && is_return) {
            return true;
        }
    }
    false
}

// Warns of a peer to which a route for all leads and whose calls such routes take, because these calls may go round.
fn warn_of_ring(plan: &Plan, peer: PeerId, targets: &Targets, report: &mut TextBuffer)
    requires { peer < length plan.now.peers }
{
    // (for the prover: a plan has at most 32 peers)
    let _count = plan.peer_count();
    let avoids_return = plan.avoids_return();
    if !targets.for_all[peer.index()] || !calls_by_routes_for_all(targets, peer, avoids_return) {
        return;
    }
    let name = plan.name(peer);
    report.text("warning: routes for all lead ");
    if avoids_return {
        report.text("to ");
        report.text(name);
        report.text(", and its calls to others: a ring of three exchanges");
    } else {
        report.text("calls of ");
        report.text(name);
        report.text(" back to ");
        report.text(name);
        report.text(": two exchanges");
    }
    report.text(" may pass one call on without end\n");
}

fn warn_of_formats(plan: &Plan, caller: PeerId, target: PeerId, report: &mut TextBuffer)
    requires caller { caller < length plan.now.peers }
    requires target { target < length plan.now.peers }
{
    let (rules, others) = (plan.rules(caller), plan.rules(target));
    // A call with other formats may still find a common one.
    let alone = if rules.routes_format { " alone" } else { "" };
    for format in [Format::Gsm, Format::Ulaw, Format::Alaw] {
        if lacks(rules.formats, others.formats, format) {
            report.text("warning: calls of ");
            report.text(plan.name(caller));
            report.text(" in ");
            report.text(format_name(format));
            report.text(alone);
            report.text(" are rejected where they lead to ");
            report.text(plan.name(target));
            report.text(", cause 21\n");
        }
    }
}

/// Writes a warning for each setting that may not be intended.
pub(crate) fn write_warnings(plan: &Plan, report: &mut TextBuffer) {
    for place in 0..plan.peer_count() {
        warn_of_credentials(plan, PeerId::new(place), report);
    }
    let targets = targets_of(plan);
    for place in 0..plan.peer_count() {
        warn_of_ring(plan, PeerId::new(place), &targets, report);
    }
    for to in 0..plan.peer_count() {
        for from in 0..plan.peer_count() {
            let (caller, target) = (PeerId::new(from), PeerId::new(to));
            if reaches(&targets, caller, target) {
                warn_of_formats(plan, caller, target, report);
            }
        }
    }
}
