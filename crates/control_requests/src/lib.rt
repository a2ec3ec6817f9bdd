//! The requests of clients of the control socket, in HTTP/1.1 (RFC 9112), and the octets of each response.
//!
//! `client` sends requests to a running service. Nothing else here waits, reads or writes.
#![tactic(auto)]

pub mod client;
mod digits;
mod json_text;
pub mod laws;
mod operation;
mod placing;
mod request;
mod response;
mod urgency;
mod views;

pub use operation::{Methods, Operation, OperationError, operation_of};
pub use placing::{PlaceFault, PlaceOrder, place_of};
pub use request::{BODY_LIMIT, FIELD_LIMIT, HEAD_LIMIT, Reading, Request, read_request};
pub use response::{Response, StatusCode};
pub use urgency::{Urgency, urgency_of};
pub use views::{AccountsRow, CallEntry, PeerRow, Rows, accounts_body, call_body};
