//! The information elements of a full frame (RFC 5456), in their order.
//!
//! `elements` reads a text of elements whole; `last_in`, `u16_in` and `u32_in` look for one element among octets;
//! `next_element` goes from one to the next.
#![tactic(auto)]

mod element_list;
mod numbers;
mod reading;
mod writing;

pub use element_list::{Cut, Elements, last_in, next_element, u16_in, u32_in};
pub use numbers::{
    AUTHMETHODS, CALLED_NUMBER, CALLING_NAME, CALLING_NUMBER, CALLINGPRES, CALLINGTNS, CALLINGTON,
    CALLTOKEN, CAPABILITY, CAUSE, CAUSECODE, CHALLENGE, FORMAT, IAX_UNKNOWN, MD5_RESULT, USERNAME,
    VERSION,
};
pub use reading::elements;
pub use writing::{append, append_to};
