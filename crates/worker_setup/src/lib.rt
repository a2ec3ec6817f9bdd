//! The workers of a plan in their seats: each has a UDP socket, the system's clock, challenges of random digits, and an
//! observer that notes the exchange's input in a trace if there is one. They report their counts.
#![tactic(auto)]

mod accounts;
mod clock;
mod digits;
mod drawing;
mod reports;
mod seat_context;
mod seats;
mod service_error;
mod skipping;
mod sockets;
mod spare_pass;
mod traced_turns;

pub use accounts::{MediaAccounts, closed_accounts, settle, write_accounts};
pub use clock::SinceOpening;
pub use digits::Digits;
pub use drawing::{with_drawn, with_drawn_key};
pub use reports::{reports_of, write_served};
pub use seat_context::SeatContext;
pub use seats::{ServiceSeat, seats_of};
pub use service_error::{ServiceError, status_of};
pub use skipping::{first_serial, skip_numbers};
pub use sockets::{PlainSockets, Sockets, room_of};
pub use spare_pass::with_spare_pass;
pub use traced_turns::{TracedTurns, lane_of};
