//! The server of the control socket and of the metrics' address. It takes the requests of clients and sends them their
//! answers. It knows no exchange.
#![tactic(auto)]

mod client;
mod clients;
mod doors;
mod socket_file;

pub use clients::{CLIENTS, Clients};
pub use doors::{Door, NotBound};
