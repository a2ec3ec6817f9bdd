//! A plan explained for people: its values with their defaults, the estimates that follow, and warnings.
#![tactic(auto)]

mod estimates;
mod explaining;
mod unknown_keys;
mod values;
mod warnings;

pub use estimates::minutes_of_talk;
pub use explaining::explain;
