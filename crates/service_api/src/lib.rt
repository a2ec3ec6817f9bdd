//! Answers to the clients of a service: its calls, peers and accounts, and the metrics.
#![tactic(auto)]

mod accounts;
mod by_name;
mod desk;
mod drain;
mod kept_answer;
mod legs;
mod lost_frames;
mod peer_rows;
mod scraping;
mod showing;

pub use desk::ApiHandler;
pub use drain::Drain;
pub use kept_answer::KeptAnswer;
pub use scraping::{answer_scrape, make_scrape};
