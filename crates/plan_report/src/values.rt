//! Writes the values of a plan, each with its key, and whether it was given.
ghost use Rattle.std.specs.Prelude.{◌<◌, length};
ghost use Rattle.call_signals.specs.PeerRules.{IsPeerRules};

use call_signals::{Format, PeerRules};
use peer_plan::{Endpoint, Key, PeerId, Plan, format_name};
use plain_text::TextBuffer;
use toml::{Table, Value};

// Returns the note behind a value that is a default.
fn by_default(table: &Table, key: Key) -> &'static str {
    match table.get(key.name()) {
        Some(_) => "",
        None => " (default)",
    }
}

/// Returns the plan version.
pub(crate) fn format_of(table: &Table) -> u64 {
    match table.get(Key::Format.name()) {
        Some(Value::Integer(2)) => 2,
        Some(Value::Integer(4)) => 4,
        _ => 1,
    }
}

/// Returns the values of a list, such as the tables of the peers, or none if the list is absent.
pub(crate) fn tables_of(table: &Table, list: Key) -> &[Value] {
    match table.get(list.name()) {
        Some(Value::Array(values)) => values,
        _ => &[],
    }
}

fn begin_line(key: Key, report: &mut TextBuffer) {
    report.text("  ");
    report.text(key.name());
    report.text(" ");
}

fn write_number(table: &Table, key: Key, value: u64, report: &mut TextBuffer) {
    begin_line(key, report);
    report.counted(value, by_default(table, key));
    report.text("\n");
}

fn write_flag(table: &Table, key: Key, value: bool, report: &mut TextBuffer) {
    begin_line(key, report);
    report.text(if value { "true" } else { "false" });
    report.text(by_default(table, key));
    report.text("\n");
}

// Writes an address and a port, and the text behind them.
fn write_endpoint(endpoint: Endpoint, rest: &str, report: &mut TextBuffer) {
    let [a, b, c, d] = endpoint.address;
    report.counted(u64::from(a), ".");
    report.counted(u64::from(b), ".");
    report.counted(u64::from(c), ".");
    report.counted(u64::from(d), ":");
    report.counted(u64::from(endpoint.port), rest);
}

/// Returns the rules of the first peer, which have the limits of all.
pub(crate) fn limits_of(plan: &Plan) -> &PeerRules
    ensures { IsPeerRules result.now }
{
    // For the prover: a plan has a peer.
    let _count = plan.peer_count();
    plan.rules(PeerId::new(0))
}

// Writes the limits that all peers have, and the number of passes. Only plan version 4 has keys for the data of a record,
// and for the times that a VNAK, a trunk frame and a challenge wait.
fn write_limits(plan: &Plan, table: &Table, format: u64, report: &mut TextBuffer) {
    let rules = limits_of(plan);
    let vnak_ms = if format == 4 {
        Some(rules.vnak_ms)
    } else {
        None
    };
    let record_octets = match rules.record_octets {
        Some(octets) => Some(u64::from(octets)),
        None => None,
    };
    let numbers = [
        (Key::RetryMs, Some(rules.retry_ms)),
        (Key::MaxRetries, Some(u64::from(rules.max_retries))),
        (Key::PingMs, Some(rules.ping_ms)),
        (Key::RecordLimit, Some(u64::from(rules.record_limit))),
        (Key::RecordOctets, record_octets),
        (Key::VnakMs, vnak_ms),
        (Key::TrunkMs, rules.trunk_ms),
        (Key::ChallengeMs, rules.challenge_ms),
        (Key::Passes, Some(u64::from(plan.passes()))),
    ];
    for &(key, number) in &numbers {
        if let Some(number) = number {
            write_number(table, key, number, report);
        }
    }
}

// Returns whether more than one worker has this endpoint.
fn is_shared(workers: &[Endpoint], at: Endpoint) -> bool {
    let mut count: u32 = 0;
    for other in workers {
        if *other == at {
            count = count.saturating_add(1);
        }
    }
    count > 1
}

fn write_workers(plan: &Plan, report: &mut TextBuffer) {
    for (place, endpoint) in plan.workers().iter().enumerate() {
        report.text("worker ");
        report.counted(place as u64, ": ");
        let rest = if is_shared(plan.workers(), *endpoint) {
            ", shared (by run; serve refuses to bind it)\n"
        } else {
            "\n"
        };
        write_endpoint(*endpoint, rest, report);
    }
}

// Writes a peer's user, and whether it has a secret. Only plan version 4 has a key for the secret of the other direction.
fn write_credentials(rules: &PeerRules, table: &Table, format: u64, report: &mut TextBuffer) {
    let Some(user) = &rules.user else {
        return report.text("  no user, no secret\n");
    };
    report.text("  user \"");
    report.put(user.as_slice());
    let has_outbound = format == 4 && table.get(Key::OutboundSecret.name()).is_some();
    report.text(match (&rules.secret, has_outbound) {
        (Some(_), false) => "\", with a secret\n",
        (Some(_), true) => "\", with a secret and an outbound secret\n",
        (None, true) => "\", no secret, with an outbound secret\n",
        (None, false) => "\", no secret\n",
    });
}

// Writes the number of frames that a leg holds, for which plan version 1 has no key.
fn write_window(window: u8, table: &Table, format: u64, report: &mut TextBuffer) {
    let by_default = if format == 1 {
        " (default)"
    } else {
        by_default(table, Key::Window)
    };
    begin_line(Key::Window, report);
    report.counted(u64::from(window), by_default);
    report.text("\n");
}

// Writes how media is sent to a peer.
fn write_media(rules: &PeerRules, table: &Table, report: &mut TextBuffer) {
    report.text("  ");
    report.text(Key::Formats.name());
    // Lower bits come first.
    for format in [Format::Gsm, Format::Ulaw, Format::Alaw] {
        if rules.formats.contains(format) {
            report.text(" ");
            report.text(format_name(format));
        }
    }
    report.text("\n");
    write_flag(table, Key::Trunk, rules.trunk, report);
    write_flag(table, Key::TrunkTimestamps, rules.trunk_timestamps, report);
}

fn write_numbers(plan: &Plan, peer: PeerId, table: &Table, report: &mut TextBuffer)
    requires { peer < length plan.now.peers }
{
    let range = plan.range(peer);
    begin_line(Key::Numbers, report);
    report.counted(u64::from(range.count), by_default(table, Key::Numbers));
    report.text(": ");
    report.counted(u64::from(range.first), " to ");
    report.counted(u64::from(range.first + range.count - 1), "\n");
}

// Writes the address to which a worker's peers send. The address 0.0.0.0 means each address of the machine.
fn write_target(endpoint: Endpoint, report: &mut TextBuffer) {
    if endpoint.address == [0, 0, 0, 0] {
        report.labelled(
            "any address of this machine, port ",
            u64::from(endpoint.port),
        );
        report.text("\n");
    } else {
        write_endpoint(endpoint, "\n", report);
    }
}

fn write_peer(plan: &Plan, peer: PeerId, table: &Table, format: u64, report: &mut TextBuffer)
    requires { peer < length plan.now.peers }
{
    report.text("peer ");
    report.text(plan.name(peer));
    report.text(": ");
    write_endpoint(plan.endpoint(peer), "\n  worker ", report);
    let worker = plan.worker(peer);
    report.counted(u64::from(worker.get()), ": it sends to ");
    write_target(plan.workers()[worker.index()], report);
    let rules = plan.rules(peer);
    write_credentials(rules, table, format, report);
    write_media(rules, table, report);
    write_window(rules.window, table, format, report);
    if format == 4 {
        write_flag(table, Key::Poke, rules.poke, report);
        write_flag(table, Key::CallToken, rules.call_tokens.is_some(), report);
        write_number(table, Key::QualifyMs, rules.qualify_ms, report);
    }
    write_numbers(plan, peer, table, report);
}

fn write_routes(plan: &Plan, report: &mut TextBuffer) {
    for route in 0..plan.route_count() {
        report.text("route \"");
        report.text(plan.prefix(route));
        report.text("\"");
        if let Some(source) = plan.source(route) {
            report.text(" from ");
            report.text(plan.name(source));
        }
        report.text(" to ");
        report.text(plan.name(plan.target(route)));
        report.text("\n");
    }
}

/// Writes the values of a plan, which was read from this table.
pub(crate) fn write_values(plan: &Plan, table: &Table, report: &mut TextBuffer) {
    let format = format_of(table);
    report.text("plan of format ");
    report.counted(format, "\n");
    write_limits(plan, table, format, report);
    write_workers(plan, report);
    let tables = tables_of(table, Key::Peer);
    for place in 0..plan.peer_count() {
        let peer = PeerId::new(place);
        if let Some(Value::Table(table)) = tables.get(peer.index()) {
            write_peer(plan, peer, table, format, report);
        }
    }
    write_routes(plan, report);
}
