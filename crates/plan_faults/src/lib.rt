//! Faults and warnings of a plan with their places in its text. It also writes plans: one of an older plan version as one of the
//! newest, and one to begin with.
//!
//! Nothing here decides whether a plan is right: `Plan::read` does.
#![tactic(auto)]

mod fault;
mod faults;
mod findings;
mod hints;
mod judging;
mod lines;
mod lists;
mod meant;
mod names;
mod report;
mod rows;
mod sample;
mod scan;
mod syntax;
mod tables;
mod upgrading;
mod values;
mod walk;
mod warnings;
mod ways;
mod words;

pub use faults::write_faults;
pub use hints::write_warnings;
pub use report::Counts;
pub use sample::SAMPLE;
pub use upgrading::{Upgrade, write_upgraded};
