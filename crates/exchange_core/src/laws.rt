//! Laws of many calls at once, in any order of their steps, from the opening of an exchange on.
pub use call_control::laws::{
    calls_at_once, leases_are_as_named, media_is_carried_once, refused_calls_end,
};
