//! The record of a call leg that has ended, read from the leg's list of frames (RFC 5456, "Call Setup", "Call Tear Down"):
//! the caller, the called number, the moments of the call, its end, and the counts of its frames. The serials that join the
//! two legs of a call. The rows that wait to be written, and their text.
#![tactic(auto)]

mod backlog;
mod call_end;
mod call_numbering;
mod call_record;
mod call_row;
mod columns;
mod counted;
mod courses;
pub mod laws;
mod leg_moment;
mod reason;
mod side;
mod side_frames;

pub use backlog::Backlog;
pub use call_end::{CallEnd, Ending};
pub use call_numbering::CallNumbering;
pub use call_record::CallRecord;
pub use call_row::{CallRow, RowTexts, push_header, push_row};
pub use columns::ending_name;
pub use counted::Counted;
pub use leg_moment::LegMoment;
pub use reason::reason_name;
pub use side::Side;
