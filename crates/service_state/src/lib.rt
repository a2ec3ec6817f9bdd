//! The state of a running service that its workers share with clients and the log: events, wakers, and the drops at the
//! workers' sockets. What is reported of it: metrics in Prometheus' text form, and when a line of the log is due.
#![tactic(auto)]

mod authentication;
mod call_rows;
mod counting;
mod drops;
mod figures;
mod laws;
mod lifecycle;
mod log_rounds;
mod metrics;
mod noted;
mod peer_marks;
mod peer_metrics;
mod peer_silence;
mod reach;
mod reasons;
mod scrape;
mod service_watch;
mod socket_drops;
mod socket_table;
mod spelling;
mod waker_table;

pub use authentication::{AUTH_FAILURES, AuthFailure};
pub use call_rows::call_row;
pub use counting::count_drops_beside;
pub use drops::drops_of;
pub use figures::{Figure, PeerFigures};
pub use laws::label_values_are_read_back;
pub use lifecycle::Lifecycle;
pub use log_rounds::{Rounds, counted_since};
pub use metrics::{Family, Kind, Label, Labels, Metrics, Sample};
pub use peer_marks::{PeerMarksRead, REFUSALS, REJECTIONS};
pub use peer_silence::{Hearing, News, news_of};
pub use reach::{Reach, reach_of};
pub use reasons::REASONS;
pub use scrape::{Scrape, scrape_of};
pub use service_watch::{NOTED, STRANGERS, ServiceWatch, Wanted};
pub use socket_drops::{DropCount, NoDrops, SocketDrops};
pub use socket_table::SocketTable;
