//! The stage that the workers of a service read, and the events that they report of each peer.
ghost use Rattle.std.specs.Prelude.{◌≡◌};

use crate::authentication::AuthFailure;
use crate::call_rows::call_row;
use crate::lifecycle::Lifecycle;
use crate::noted::Noted;
use crate::peer_marks::{PeerMarks, PeerMarksRead, count_one};
use crate::socket_drops::SocketDrops;
use crate::waker_table::WakerTable;
use call_files::CallOutlets;
use call_records::{CallRow, reason_name};
use exchange_core::{Event, Refusal, Rejection, Retired, ServiceStage, Watch};
use peer_plan::{Endpoint, PeerId, Plan, WorkerId};
use std::alloc::{AllocError, Global};
use std::mem;
use std::sync::atomic::{AtomicU64, Ordering};
use std::sync::{Mutex, Wait};
use trace_writer::Trace;
use udp_wires::WireWaker;

/// The number of strangers' endpoints that are kept until the log takes them.
pub const STRANGERS: usize = 256;

/// The number of refusals, and of ended legs, that are kept until the log takes them.
pub const NOTED: usize = 1024;

/// The kinds of events that the log wants one by one.
#[derive(Clone, Copy)]
pub struct Wanted {
    /// Each datagram of a peer that is refused.
    pub refusals: bool,
    /// Each leg that ends.
    pub ends: bool,
}

/// The stage of a service, and the events of its workers, by peer. All threads share it.
pub struct ServiceWatch {
    lifecycle: Lifecycle,
    peers: Vec<PeerMarks>,
    strangers: AtomicU64,
    faults: AtomicU64,
    drops: SocketDrops,
    // The endpoints of strangers that the log hasn't taken yet.
    seen: Mutex<Vec<Endpoint>>,
    // The refusals and the ended legs that the log hasn't taken yet, if it wants them.
    wanted: Wanted,
    refusals: Noted<(PeerId, Refusal)>,
    ends: Noted<CallRow>,
    wakers: WakerTable,
    // The outlets for the rows of ended legs, if a file of call records is written.
    calls: Option<CallOutlets>,
    // The trace of the exchange's input, if one is written.
    trace: Option<Trace>,
}

// Written out, so that an owner proves one call at its drop, not the drop of each field.
impl Drop for ServiceWatch {
    fn drop(self) {
        let ServiceWatch {
            lifecycle: _,
            peers: _,
            strangers: _,
            faults: _,
            drops: _,
            seen: _,
            wanted: _,
            refusals: _,
            ends: _,
            wakers: _,
            calls: _,
            trace: _,
        } = self;
    }
}

// Reserves room for the events that the log wants one by one.
fn noted_of(
    alloc: Global,
    wanted: Wanted,
) -> Result<(Noted<(PeerId, Refusal)>, Noted<CallRow>), AllocError> {
    let refusals = Noted::new(alloc, if wanted.refusals { NOTED } else { 0 })?;
    let ends = Noted::new(alloc, if wanted.ends { NOTED } else { 0 })?;
    Ok((refusals, ends))
}

// Returns a plan's peers before their first datagram, and room for strangers and the workers' wakers.
fn room_of(
    alloc: Global,
    plan: &Plan,
) -> Result<(Vec<PeerMarks>, Vec<Endpoint>, WakerTable), AllocError> {
    let mut peers = Vec::new(alloc);
    for _ in 0..plan.peer_count() {
        let marks = PeerMarks::new(alloc)?;
        if peers.push(marks).is_err() {
            return Err(AllocError);
        }
    }
    let seen = Vec::with_capacity(alloc, STRANGERS)?;
    let wakers = WakerTable::new(alloc, plan.workers().len())?;
    Ok((peers, seen, wakers))
}

impl ServiceWatch {
    /// Returns the watch of a running service with a plan's peers, before their first datagram. The rows of ended legs go
    /// to `calls`, and the exchange's input to `trace`, if these are given. Events of the `wanted` kinds are kept for the
    /// log.
    ///
    /// Returns `AllocError` if a request for memory was refused.
    pub fn new(
        alloc: Global,
        plan: &Plan,
        calls: Option<CallOutlets>,
        trace: Option<Trace>,
        wanted: Wanted,
    ) -> Result<ServiceWatch, AllocError> {
        let (refusals, ends) = noted_of(alloc, wanted)?;
        let (peers, seen, wakers) = room_of(alloc, plan)?;
        let drops = SocketDrops::new(alloc, plan.workers().len())?;
        Ok(ServiceWatch {
            lifecycle: Lifecycle::new(),
            peers,
            strangers: AtomicU64::new(0),
            faults: AtomicU64::new(0),
            drops,
            seen: Mutex::new(seen),
            wanted,
            refusals,
            ends,
            wakers,
            calls,
            trace,
        })
    }

    /// Returns the counters of a peer, or zeros if the plan has no such peer.
    pub fn marks(&self, peer: PeerId) -> PeerMarksRead {
        match self.peers.get(peer.index()) {
            Some(marks) => marks.read(),
            None => PeerMarksRead::default(),
        }
    }

    /// Returns the number of a peer's datagrams that were refused for this reason, modulo 2^64. If the plan has no
    /// such peer, the number is 0.
    pub fn refused_for(&self, peer: PeerId, refusal: Refusal) -> u64 {
        match self.peers.get(peer.index()) {
            Some(marks) => match marks.refused_for(refusal) {
                Some(count) => count.load(Ordering::Relaxed),
                None => 0,
            },
            None => 0,
        }
    }

    /// Returns the number of a peer's datagrams that were answered by this rejection, modulo 2^64. If the plan has no
    /// such peer, the number is 0.
    pub fn rejected(&self, peer: PeerId, rejection: Rejection) -> u64 {
        match self.peers.get(peer.index()) {
            Some(marks) => marks.rejected(rejection).load(Ordering::Relaxed),
            None => 0,
        }
    }

    /// Returns the number of a peer's calls that failed to authenticate in this way, modulo 2^64. If the plan has no
    /// such peer, the number is 0.
    pub fn unauthenticated(&self, peer: PeerId, failure: AuthFailure) -> u64 {
        match self.peers.get(peer.index()) {
            Some(marks) => marks.unauthenticated(failure).load(Ordering::Relaxed),
            None => 0,
        }
    }

    /// Returns the number of a peer's calls that failed for the reason of this name, modulo 2^64. If the plan has no
    /// such peer, the number is 0.
    pub fn failed(&self, peer: PeerId, reason: &str) -> u64 {
        match self.peers.get(peer.index()) {
            Some(marks) => match marks.failed(reason) {
                Some(count) => count.load(Ordering::Relaxed),
                None => 0,
            },
            None => 0,
        }
    }

    /// Returns the outlets for the rows of ended legs, if a file of call records is written.
    pub fn calls(&self) -> Option<&CallOutlets> {
        self.calls.as_ref()
    }

    /// Returns the trace of the exchange's input, if one is written.
    pub fn trace(&self) -> Option<&Trace> {
        self.trace.as_ref()
    }

    /// Returns the number of datagrams from strangers, modulo 2^64.
    pub fn strangers(&self) -> u64 {
        self.strangers.load(Ordering::Relaxed)
    }

    /// Returns the number of failed calls of the sockets, modulo 2^64.
    pub fn faults(&self) -> u64 {
        self.faults.load(Ordering::Relaxed)
    }

    /// Returns the datagrams that the system dropped at the workers' sockets.
    pub fn drops(&self) -> &SocketDrops {
        &self.drops
    }

    /// Takes the endpoints of new strangers, at most as many as the list had room for. The list `spare` replaces theirs,
    /// with its content.
    pub fn take_strangers<R: Wait>(&self, rt: &R, spare: Vec<Endpoint>) -> Vec<Endpoint> {
        let mut seen = self.seen.lock(rt);
        mem::replace(&mut *seen, spare)
    }

    /// Takes the new refusals, each with its peer, if they are wanted. The list `spare` replaces theirs, with its content.
    pub fn take_refusals<R: Wait>(
        &self,
        rt: &R,
        spare: Vec<(PeerId, Refusal)>,
    ) -> Vec<(PeerId, Refusal)> {
        self.refusals.take(rt, spare)
    }

    /// Takes the legs that have ended since the last call, if they are wanted. The list `spare` replaces theirs, with its
    /// content.
    pub fn take_ends<R: Wait>(&self, rt: &R, spare: Vec<CallRow>) -> Vec<CallRow> {
        self.ends.take(rt, spare)
    }

    /// Returns the number of ended legs for which the kept list had no place, modulo 2^64.
    pub fn lost_ends(&self) -> u64 {
        self.ends.lost()
    }

    /// Keeps the waker of a worker, unless it has one.
    pub fn keep_waker(&self, worker: WorkerId, waker: WireWaker) {
        self.wakers.keep(worker, waker);
    }

    /// Takes a leg that a thread took out: counts its end, and hands it to the call records and the trace. The threads are
    /// the workers, by their places in the plan, and then the one that serves the clients.
    pub fn note_retired(&self, thread: u16, leg: &Retired) {
        self.see_end(leg);
        if let Some(calls) = &self.calls {
            calls.hand_over(thread, call_row(leg, 0));
        }
        if let Some(trace) = &self.trace {
            trace.free(leg.name.number);
        }
    }

    /// Wakes each worker that has a waker, after an order that may have filled outboxes of any peer.
    pub fn wake_all(&self) {
        self.wakers.wake_all();
    }

    /// Returns the lifecycle of the service.
    pub fn lifecycle(&self) -> &Lifecycle {
        &self.lifecycle
    }

    // Counts a datagram received from a peer. Only a sign of life sets the moment of the last one.
    fn hear(&self, peer: PeerId, now: u64, is_alive: bool) {
        if let Some(marks) = self.peers.get(peer.index()) {
            if is_alive {
                marks.heard.store(now.saturating_add(1), Ordering::Relaxed);
            }
            count_one(&marks.received);
        }
    }

    // Counts a datagram of a peer that had no effect.
    fn refuse(&self, peer: PeerId, refusal: Refusal) {
        if let Some(marks) = self.peers.get(peer.index()) {
            count_one(&marks.refused);
            if let Some(count) = marks.refused_for(refusal) {
                count_one(count);
            }
        }
        if self.wanted.refusals {
            self.refusals.note((peer, refusal));
        }
    }

    // Counts a leg that has ended if its call or its authentication failed, and keeps it for the log if that wants it.
    fn see_end(&self, leg: &Retired) {
        let row = call_row(leg, 0);
        if let Some(marks) = self.peers.get(row.name.owner().index()) {
            if let Some(failure) = AuthFailure::of(&row) {
                count_one(marks.unauthenticated(failure));
            }
            if let Some(count) = marks.failed(reason_name(&row)) {
                count_one(count);
            }
        }
        if self.wanted.ends {
            self.ends.note(row);
        }
    }

    // Counts a request of a peer that the answer rejected.
    fn reject(&self, peer: PeerId, rejection: Rejection) {
        if let Some(marks) = self.peers.get(peer.index()) {
            count_one(marks.rejected(rejection));
        }
    }

    // Counts a datagram of a peer that wasn't passed to the exchange.
    fn turn_away(&self, peer: PeerId) {
        if let Some(marks) = self.peers.get(peer.index()) {
            count_one(&marks.refused);
            count_one(&marks.turned_away);
        }
    }

    // Counts a leg of a peer that was taken out.
    fn end_leg(&self, peer: PeerId) {
        if let Some(marks) = self.peers.get(peer.index()) {
            count_one(&marks.legs_ended);
        }
    }

    // Counts a datagram of a stranger. Its endpoint is kept for the log if there is room and no other thread has locked the
    // list.
    fn see_stranger(&self, from: Endpoint) {
        count_one(&self.strangers);
        if let Some(mut seen) = self.seen.try_lock() {
            if seen.len() < seen.capacity() {
                let _ = seen.push(from);
            }
        }
    }

    // Counts a datagram to a peer as sent or lost.
    fn send(&self, peer: PeerId, lost: bool) {
        if let Some(marks) = self.peers.get(peer.index()) {
            count_one(if lost { &marks.lost } else { &marks.sent });
        }
    }
}

impl Watch for ServiceWatch {
    fn stage(&self) -> ServiceStage {
        self.lifecycle.stage()
    }

    fn observe(&self, event: Event) {
        match event {
            Event::Received {
                peer,
                now,
                is_alive,
            } => self.hear(peer, now, is_alive),
            Event::Refused { peer, refusal } => self.refuse(peer, refusal),
            Event::Rejected { peer, rejection } => self.reject(peer, rejection),
            Event::TurnedAway { peer } => self.turn_away(peer),
            Event::Stranger { from } => self.see_stranger(from),
            Event::Sent { peer } => self.send(peer, false),
            Event::Lost { peer } => self.send(peer, true),
            Event::Fault => count_one(&self.faults),
            Event::Retired { peer } => self.end_leg(peer),
        }
    }

    fn retire(&self, worker: WorkerId, leg: &Retired) {
        self.note_retired(worker.get(), leg);
    }

    // A service runs with all workers or none: if a thread is refused, the others end.
    fn no_thread(&self) {
        self.lifecycle.end();
    }

    fn wake(&self, worker: WorkerId) {
        self.wakers.wake(worker);
    }
}
