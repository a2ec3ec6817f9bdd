//! Tests of the workers, over wires in memory and over a socket on loopback.

mod both_at_once;
mod burst;
mod draining;
mod failing_wire;
mod loopback;
mod memory_wire;
mod observed;
mod waking;
mod whole_call;
mod woken_wire;

pub use crate::tests::wires::both_at_once::turn_on;
pub use crate::tests::wires::burst::{Burst, Taken, play_burst};
pub use crate::tests::wires::draining::{Unaccepted, play_draining};
pub use crate::tests::wires::loopback::{Rejection, call_first};
pub use crate::tests::wires::observed::{Calls, play_observed};
pub use crate::tests::wires::waking::play_waking;
pub use crate::tests::wires::whole_call::{Played, play_call};
