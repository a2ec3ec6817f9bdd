//! The workers' sockets as a service sets them up: workers of one endpoint share it, the system's receive buffers are
//! larger, and each worker has a waker.
use libc::net as system;
use log::{Log, info, warn};
use peer_plan::WorkerId;
use service_state::ServiceWatch;
use std::os::fd::RawFd;
use udp_wires::WireWaker;
use worker_setup::Sockets;

/// Workers of one endpoint share it. Each socket asks for its share of the receive buffer. The log reports the size that a
/// worker's own socket got; the sockets connected to its peers have the same. The watch keeps the wakers.
#[derive(Drop)]
pub(crate) struct ServiceSockets<'l, L> {
    pub(crate) log: &'l L,
    pub(crate) watch: &'l ServiceWatch,
}

// Returns the size of a socket's receive buffer in octets after a request for `wanted`, or `None` if the system doesn't
// report it. The system grants at most `net.core.rmem_max`, and counts each octet twice.
fn room_of(descriptor: RawFd, wanted: u32) -> Option<u64> {
    let mut value = [0u8; 16];
    value[..4].copy_from_slice(&wanted.to_ne_bytes());
    let _ = unsafe {
        system::setsockopt(descriptor, system::SOL_SOCKET, system::SO_RCVBUF, &value, 4)
    };
    let mut len = 16;
    let status = unsafe {
        system::getsockopt(
            descriptor,
            system::SOL_SOCKET,
            system::SO_RCVBUF,
            &mut value,
            &mut len,
        )
    };
    if status != 0 {
        return None;
    }
    let octets = u32::from_ne_bytes([value[0], value[1], value[2], value[3]]);
    Some(u64::from(octets))
}

impl<'l, L: Log> Sockets for ServiceSockets<'l, L> {
    fn are_shared(&self) -> bool {
        true
    }

    fn set_up(&self, worker: WorkerId, descriptor: RawFd, room: u32) -> Option<u64> {
        let (place, given) = (worker.get(), room_of(descriptor, room));
        if let Some(octets) = given {
            info!(self.log; "worker {place} has room for {octets} octets of datagrams that wait");
        }
        given
    }

    fn set_up_link(&self, descriptor: RawFd, room: u32) {
        let _given = room_of(descriptor, room);
    }

    fn are_woken(&self) -> bool {
        true
    }

    fn keep_waker(&self, worker: WorkerId, waker: Option<WireWaker>) {
        let place = worker.get();
        match waker {
            Some(waker) => self.watch.keep_waker(worker, waker),
            None =>
                warn!(self.log; "worker {place} isn't woken by others: the system gives no eventfd"),
        }
    }
}
