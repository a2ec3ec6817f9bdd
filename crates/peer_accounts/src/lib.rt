//! The accounts of a peer, the pass that its credit goes to, and the list of what is handed up.
#![tactic(auto)]

mod account;
mod closed_account;
mod ledger_set;
mod onwards;
mod pass;
mod sums;

pub use account::{Account, Carried};
pub use closed_account::ClosedAccount;
pub use ledger_set::{LedgerSet, Service};
pub use onwards::{Offer, Onwards};
pub use pass::Pass;
pub use sums::Sums;
