//! The steps of one call of an exchange as plain data, and laws of many calls at once ("Call Setup").
#![tactic(auto)]

mod answers;
pub mod laws;
mod need;
mod place;
mod reply;
mod work;

pub use need::{Need, Route};
pub use place::Place;
pub use reply::{Reply, StepReply};
pub use work::Work;
