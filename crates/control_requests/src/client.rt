//! The client of the control socket: sends an order to a running service, and shows the answer as text for people.
mod asking;
mod order;
mod showing;
mod tables;

pub use order::ControlOrder;
pub use showing::give_order;
