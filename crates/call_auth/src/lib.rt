//! Challenges and their MD5 answers ("CHALLENGE", "MD5 RESULT"), and call tokens.
#![tactic(auto)]

mod call_token;
mod challenge;
mod md5_answer;

pub use call_token::{CallTokens, TOKEN_MS};
pub use challenge::Challenge;
pub use md5_answer::{accepts, answer};
