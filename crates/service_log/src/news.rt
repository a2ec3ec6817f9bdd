//! Log lines about a peer that answers for the first time, falls silent, or answers again.
ghost use Rattle.std.specs.Prelude.{◌<◌, length};

use crate::lines::log_line;
use log::{Level, Log};
use peer_plan::{PeerId, Plan};
use service_state::News;

// A peer counts as silent after this number of its `ping_ms`.
const PINGS: u64 = 3;

// Returns the time for which a peer may be silent, in milliseconds. A peer that isn't pinged has no limit.
pub(crate) fn silence_limit(plan: &Plan, peer: PeerId) -> u64
    requires { peer < length plan.now.peers }
{
    match plan.rules(peer).ping_ms {
        0 => u64::MAX,
        ping_ms => PINGS.saturating_mul(ping_ms),
    }
}

// Silence is a warning only if the peer has legs.
fn log_silence<L: Log>(log: &L, name: &str, silent_ms: u64, legs: u16) {
    let seconds = silent_ms / 1000;
    let silence = format_args!("{name} is silent for {seconds} s");
    if legs > 0 {
        log_line(
            log,
            Level::Warn,
            &format_args!("{silence}, and has {legs} legs"),
        );
    } else {
        log_line(log, Level::Info, &silence);
    }
}

// Logs the news of a peer that has `legs` legs.
pub(crate) fn log_news<L: Log>(log: &L, name: &str, news: News, legs: u16) {
    match news {
        News::FirstWord => {
            log_line(
                log,
                Level::Info,
                &format_args!("{name} is heard for the first time"),
            );
        }
        News::HeardAgain => log_line(log, Level::Info, &format_args!("{name} is heard again")),
        News::Silent(silent_ms) => log_silence(log, name, silent_ms, legs),
    }
}
