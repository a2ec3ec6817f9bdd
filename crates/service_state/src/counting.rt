//! The thread that counts the datagrams that the system dropped at the workers' sockets.
use crate::socket_drops::{NoDrops, SocketDrops};
use crate::socket_table::SocketTable;
use peer_plan::Endpoint;
use std::alloc::Global;
use std::sync::Wait;
use std::thread;
use std::thread::Threads;
use std::time::{Clock, Duration};

// The number of rests between two counts: ten seconds.
const RESTS: u32 = 100;

// The length of a rest in milliseconds, after which the thread looks whether it is to end.
const REST_MS: u64 = 100;

// Waits until the next count is due. Returns false if the thread is to end.
fn rest<R: Clock>(rt: &R, drops: &SocketDrops) -> bool {
    for _ in 0..RESTS {
        if drops.is_over() {
            return false;
        }
        thread::sleep(rt, Duration::from_millis(REST_MS));
    }
    !drops.is_over()
}

// Counts once in ten seconds, until the thread is to end.
fn count_rounds<R: Clock + Wait>(
    rt: &R,
    alloc: Global,
    table: &mut SocketTable,
    drops: &SocketDrops,
    workers: &[Endpoint],
) {
    for _ in rt.forever() {
        drops.set_unknown(table.count(alloc, drops, workers));
        if !rest(rt, drops) {
            break;
        }
    }
}

/// Runs a service. A separate thread counts the drops at the sockets of these workers, once in ten seconds, from a table of
/// at most 1 MiB. Without a table there is no thread, and the drops aren't known. A longer table isn't read to its end, so
/// that nobody with many sockets keeps a processor busy.
///
/// Returns the result of `serve`, or false if the thread was refused; then nothing is served. The thread ends once `serve`
/// has returned, within a tenth of a second or the count of one worker.
pub fn count_drops_beside<R: Clock + Threads + Wait + Sync, F: FnOnce() -> bool>(
    rt: &R,
    alloc: Global,
    table: Option<SocketTable>,
    drops: &SocketDrops,
    workers: &[Endpoint],
    serve: F,
) -> bool
    requires { F.pre serve }
{
    let Some(table) = table else {
        drops.set_unknown(Some(NoDrops::NoTable));
        return serve();
    };
    thread::scope(thread::scope_env(), rt, move |scope| {
        let is_counted = scope
            .spawn(move || {
                let mut table = table;
                count_rounds(rt, alloc, &mut table, drops, workers);
            })
            .is_ok();
        let is_served = is_counted && serve();
        drops.end();
        is_served
    })
}
