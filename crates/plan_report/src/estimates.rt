//! Estimates that follow from the values of a plan.
ghost use Rattle.std.specs.Prelude.{◌≡◌, ◌≤◌, ◌<◌, ◌^◌};
ghost use Rattle.call_signals.specs.PeerRules.{IsPeerRules};
ghost use Rattle.plan_report.specs.Estimates as estimate;

use crate::values::limits_of;
use call_signals::PeerRules;
use peer_plan::{Key, Plan};
use plain_text::TextBuffer;

// Returns the time for which a frame is retransmitted before its call ends, in milliseconds.
fn silence_ms(retry_ms: u64, max_retries: u32) -> u64
    requires retry_ms { retry_ms ≤ 60000 }
    requires max_retries { max_retries ≤ 20 }
    ensures { result ≡ estimate.silence_ms retry_ms max_retries }
{
    retry_ms * (u64::from(max_retries) + 1)
}

// Returns the number of entries that an hour adds to the record of a leg that talks to an Asterisk.
fn entries_an_hour(ping_ms: u64) -> u64
    ensures value { result ≡ estimate.entries_an_hour ping_ms }
    ensures some { 1 ≤ result }
{
    if ping_ms == 0 {
        1759
    } else {
        10_800_000 / ping_ms + 1759
    }
}

// Returns the greatest number of entries of such a leg.
fn entries_of_talk(record_limit: u32, record_octets: Option<u32>) -> u32
    requires { 64 ≤ record_limit }
    ensures { result ≡ estimate.entries_of_talk record_limit record_octets }
{
    match record_octets {
        Some(record_octets) => (record_limit - 4).min(record_octets / 8),
        None => record_limit - 4,
    }
}

// Returns the minutes after which such a leg ends.
fn minutes(record_limit: u32, record_octets: Option<u32>, ping_ms: u64) -> u64
    requires { 64 ≤ record_limit }
    ensures { result ≡ estimate.minutes record_limit record_octets ping_ms }
{
    u64::from(entries_of_talk(record_limit, record_octets)) * 60 / entries_an_hour(ping_ms)
}

/// Returns the minutes after which the record of a leg that only talks ends its call.
pub fn minutes_of_talk(plan: &Plan) -> u64 {
    let rules = limits_of(plan);
    minutes(rules.record_limit, rules.record_octets, rules.ping_ms)
}

// Returns the octets of data in a full record whose frames have `octets` octets each, up to its limit.
fn data_octets(record_limit: u32, record_octets: Option<u32>, octets: u16) -> u64
    requires { record_limit ≤ 65536 }
    ensures value { result ≡ estimate.data_octets record_limit record_octets octets }
    ensures most { result < 2 ^ 32 }
{
    let all = u64::from(record_limit) * u64::from(octets);
    match record_octets {
        Some(record_octets) => all.min(u64::from(record_octets)),
        None => all,
    }
}

// Returns the memory of `legs` such records, in megabytes.
fn megabytes(legs: u16, record_limit: u32, record_octets: Option<u32>, octets: u16) -> u64
    requires { record_limit ≤ 65536 }
    ensures { result ≡ estimate.megabytes legs record_limit record_octets octets }
{
    let data = data_octets(record_limit, record_octets, octets);
    u64::from(legs) * (u64::from(record_limit) * 16 + data) / 1_000_000 + 1
}

// Writes when a call that only talks ends, and by which limit of its record.
fn write_end_of_talk(rules: &PeerRules, report: &mut TextBuffer)
    requires { IsPeerRules rules.now }
{
    let (limit, octets) = (rules.record_limit, rules.record_octets);
    let key = if entries_of_talk(limit, octets) < limit - 4 {
        Key::RecordOctets
    } else {
        Key::RecordLimit
    };
    let minutes = minutes(limit, octets, rules.ping_ms);
    report.text(key.name());
    report.text(" ends a call that only talks after about ");
    report.counted(minutes / 60, " h ");
    report.counted(minutes % 60, " min\n");
}

// Writes the memory of the records of all legs, for usual calls and at worst.
fn write_memory(legs: u16, rules: &PeerRules, report: &mut TextBuffer)
    requires { IsPeerRules rules.now }
{
    let (limit, octets) = (rules.record_limit, rules.record_octets);
    report.counted(u64::from(legs), " legs with full records take some ");
    report.counted(megabytes(legs, limit, octets, 8), " MB; ");
    let is_data_limited = data_octets(limit, octets, 1388) < data_octets(limit, None, 1388);
    let worst = if is_data_limited {
        " MB with all the data that record_octets allows\n"
    } else {
        " MB where each frame is as long as it may be\n"
    };
    report.counted(megabytes(legs, limit, octets, 1388), worst);
}

/// Writes the estimates that follow from the values of a plan.
pub(crate) fn write_estimates(plan: &Plan, report: &mut TextBuffer) {
    let rules = limits_of(plan);
    report.text("a frame that nobody acknowledges ends its call after ");
    report.counted(silence_ms(rules.retry_ms, rules.max_retries), " ms\n");
    write_end_of_talk(rules, report);
    write_memory(plan.number_count(), rules, report);
}
