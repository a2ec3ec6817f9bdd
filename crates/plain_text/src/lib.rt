//! Texts that are written piece by piece, and are whole or not at all. Texts of any octets, made printable for a terminal, a
//! table or a file of lines: no octet moves a cursor, ends a line or hides text before it.
#![tactic(auto)]

mod escaping;
mod text_buffer;

pub use escaping::{printable, push_printable};
pub use text_buffer::TextBuffer;
