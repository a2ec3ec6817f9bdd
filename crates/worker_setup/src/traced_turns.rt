//! An observer of a worker's turns that notes them in the trace.
use crate::service_error::ServiceError;
use call_auth::Challenge;
use exchange_core::Event;
use peer_plan::{Endpoint, PeerId};
use std::alloc::Global;
use std::sync::Wait;
use trace_writer::{Trace, TraceLane};
use udp_workers::TurnObserver;

/// Notes the turns of a worker if there is a trace.
#[derive(Drop)]
pub struct TracedTurns<'t, R: Wait> {
    pub(crate) rt: &'t R,
    pub(crate) lane: Option<TraceLane<'t>>,
}

/// Returns the lane of the thread at this place, if there is a trace.
///
/// Returns `Memory` if a request for memory was refused.
pub fn lane_of<'t>(
    alloc: Global,
    trace: Option<&'t Trace>,
    thread: usize,
) -> Result<Option<TraceLane<'t>>, ServiceError> {
    match trace {
        Some(trace) => Ok(Some(TraceLane::new(alloc, trace, thread)?)),
        None => Ok(None),
    }
}

// Notes an event of a turn, if the trace has it.
fn note_event(lane: &mut TraceLane<'_>, event: Event) {
    match event {
        Event::TurnedAway { .. } => lane.turn_away(),
        Event::Refused { refusal, .. } => {
            if refusal.reserves_nothing() {
                lane.refuse();
            }
        }
        Event::Retired { .. } => lane.retire(),
        Event::Sent { peer } => lane.send(peer, true),
        Event::Lost { peer } => lane.send(peer, false),
        Event::Received { .. } | Event::Rejected { .. } | Event::Stranger { .. } | Event::Fault =>
            {}
    }
}

impl<'t, R: Wait> TurnObserver for TracedTurns<'t, R> {
    fn turn_begins(&mut self, now: u64, challenge: &Challenge) {
        if let Some(lane) = &mut self.lane {
            lane.begin_turn(self.rt, now, challenge);
        }
    }

    fn datagram(&mut self, peer: Option<PeerId>, from: Endpoint, octets: &[u8]) {
        if let Some(lane) = &mut self.lane {
            lane.datagram(self.rt, peer, from, octets);
        }
    }

    fn ticks_begin(&mut self) {
        if let Some(lane) = &mut self.lane {
            lane.tick(self.rt);
        }
    }

    fn event(&mut self, event: Event) {
        if let Some(lane) = &mut self.lane {
            note_event(lane, event);
        }
    }

    fn turn_ends(&mut self) {
        if let Some(lane) = &mut self.lane {
            lane.end_turn(self.rt);
        }
    }
}
