//! Drains of peers: new calls are rejected, and each call continues, at whatever stage the drain finds it.

mod arrivals;
mod between;
mod newcomers;
mod stages;

pub use crate::tests::drains::between::{Between, drain_between};
pub use crate::tests::drains::stages::{Drain, Kept, play_drained};
