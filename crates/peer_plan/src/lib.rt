//! The plan of an exchange, read from a TOML text: its workers, its peers with their numbers and rules, its routes.
#![tactic(auto)]

mod address;
mod drawn;
mod endpoint;
mod error;
mod format_names;
mod key;
mod key_name;
mod laws;
mod number_range;
mod owners;
mod peer;
mod peer_names;
mod plan;
mod reading;
mod route;
mod routes;
mod short_text;
mod worker_id;

pub use call_book::PeerId;
pub use drawn::Drawn;
pub use endpoint::Endpoint;
pub use error::PlanError;
pub use format_names::format_name;
pub use key::{Key, Section, is_known};
pub use key_name::KeyName;
pub use laws::longest_prefixes_lead;
pub use number_range::NumberRange;
pub use peer_names::peer_named;
pub use plan::Plan;
pub use worker_id::WorkerId;
