//! The reasons why calls failed, by which they are counted.

/// The names that the column `reason` of call records has (`docs/RECORDS.md`).
pub const REASONS: [&str; 11] = [
    "wrong_secret",
    "no_secret",
    "no_common_format",
    "no_route",
    "bad_number",
    "no_number",
    "rejected_by_peer",
    "retries_spent",
    "record_full",
    "challenge_timeout",
    "inval",
];
