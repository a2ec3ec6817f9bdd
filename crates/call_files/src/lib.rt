//! The file of call records. The threads of a service hand over the row of each leg that was taken out, without waiting. A
//! separate thread appends the rows to a file.
//!
//! `RowLog`, `Outlet` and `Appender` bring rows of any kind to a file that is a trait: none is lost below a bound, and none is
//! torn, whatever the file does. They open, read and wait for nothing. Traces and the log use them too.
//!
//! `system_limits` has the limits of the process that such files and others meet.
#![tactic(auto)]

mod appender;
mod disk;
mod disk_file;
mod fault;
mod line;
mod outlet;
mod outlets;
mod row_file;
mod row_log;
mod spelling;
pub mod system_limits;
mod writer;

pub use appender::{Appender, Trouble};
pub use disk::Disk;
pub use fault::Fault;
pub use line::Line;
pub use outlet::Outlet;
pub use outlets::{CallOutlets, FileState};
pub use row_file::{Beginning, RowFile, Whereabouts};
pub use row_log::{RowLog, Spelling};
pub use spelling::Calendar;
pub use writer::{CallRows, write_calls_beside};
