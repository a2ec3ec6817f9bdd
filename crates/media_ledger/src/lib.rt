//! Shares of a fixed supply. Amounts move from share to share, and all shares together have what was supplied.
//!
//! A ledger, the parameter `L`, has a number of parts. A `Blank` of it is supplied once, with one share for each part. No
//! share belongs to another ledger, and none is made later. So an owner of as many shares as were supplied has them all.
#![tactic(auto)]

mod share;
pub mod shares;
mod supplied;

pub use share::Share;
pub use shares::{gather, pass_on, supply};
pub use std::sync::ledger::Blank;
pub use supplied::{Missing, Supply, SupplyError};
