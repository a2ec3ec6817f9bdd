//! The stages of the plan's numbers, as last reported to a viewer.
use crate::replay_context::ReplayContext;
use crate::viewer::{Stop, Viewer};
use leg_machine::Stage;
use peer_lock::{LedgerSet, Status};
use peer_plan::{PeerId, Plan};
use std::alloc::{AllocError, Global};
use std::sync::Wait;

// The numbers whose stage may have changed since it was reported.
#[derive(Clone, Copy, PartialEq, Eq)]
enum Changed {
    None,
    // The numbers that had a leg.
    Live,
    Any,
}

/// The reported stage of each number, and the numbers whose stage may have changed since.
///
/// Only a full frame or an outgoing call opens a leg. So after any other line, only the numbers that had a leg before it
/// are checked. A datagram that isn't a full frame brings media at most, and leaves each leg in its stage. After it no
/// number is checked.
#[derive(Drop)]
pub(crate) struct Stages {
    // By number, from 1 on.
    reported: Vec<Option<Stage>>,
    // The peer of each number.
    peers: Vec<PeerId>,
    // The places of the numbers whose reported stage is that of a leg, ascending.
    live: Vec<usize>,
    changed: Changed,
}

// Returns the peer of each number of a plan.
fn peers_of(alloc: Global, plan: &Plan) -> Result<Vec<PeerId>, AllocError> {
    let mut peers = Vec::new(alloc);
    for place in 0..plan.peer_count() {
        let peer = PeerId::new(place);
        for _ in 0..plan.range(peer).count {
            if peers.push(peer).is_err() {
                return Err(AllocError);
            }
        }
    }
    Ok(peers)
}

impl Stages {
    /// Returns the stages of a plan without legs.
    pub(crate) fn new(alloc: Global, plan: &Plan) -> Result<Stages, AllocError> {
        let peers = peers_of(alloc, plan)?;
        Ok(Stages {
            reported: vec![in alloc; None; peers.len()]?,
            live: Vec::with_capacity(alloc, peers.len())?,
            peers,
            changed: Changed::None,
        })
    }

    /// Returns the count of numbers.
    pub(crate) fn count(&self) -> usize {
        self.reported.len()
    }

    /// Notes that a leg may have been opened at any number.
    pub(crate) fn doubt(&mut self) {
        self.changed = Changed::Any;
    }

    /// Notes that each existing leg may have changed its stage.
    pub(crate) fn doubt_live(&mut self) {
        if self.changed == Changed::None {
            self.changed = Changed::Live;
        }
    }

    /// Returns the status of the leg of a number.
    pub(crate) fn status<J: LedgerSet, R: Wait, V>(
        &self,
        context: &mut ReplayContext<'_, R, J, V>,
        number: u16,
    ) -> Option<Status> {
        let exchange = context.exchange;
        match self.peers.get(usize::from(number).wrapping_sub(1)) {
            Some(peer) if peer.get() < exchange.plan().peer_count() => {
                exchange.status(context.rt, context.pass, *peer, number)
            }
            _ => None,
        }
    }

    // Returns whether any stage may have changed. The numbers to check are then those in `live`.
    fn are_doubted(&mut self) -> Result<bool, Stop> {
        let changed = self.changed;
        self.changed = Changed::None;
        if changed != Changed::Any {
            return Ok(changed == Changed::Live);
        }
        self.live.clear();
        for place in 0..self.reported.len() {
            if self.live.push(place).is_err() {
                return Err(Stop::Memory);
            }
        }
        Ok(true)
    }

    /// Reports each changed stage to the viewer, by ascending number.
    pub(crate) fn report_changes<J: LedgerSet, R: Wait, V: Viewer>(
        &mut self,
        context: &mut ReplayContext<'_, R, J, V>,
        now: u64,
    ) -> Result<(), Stop> {
        match self.are_doubted() {
            Ok(true) => {}
            Ok(false) => return Ok(()),
            Err(stop) => return Err(stop),
        }
        let mut count: usize = 0;
        for turn in 0..self.live.len() {
            let place = self.live.get(turn).copied().unwrap_or(0);
            match self.report_change(context, place, now) {
                Ok(true) => {
                    self.keep(count, place);
                    count = count.saturating_add(1);
                }
                Ok(false) => {}
                Err(stop) => return Err(stop),
            }
        }
        self.live.truncate(count);
        Ok(())
    }

    // Keeps a number that has a leg, behind `count` others.
    fn keep(&mut self, count: usize, place: usize) {
        if let Some(at) = self.live.get_mut(count) {
            *at = place;
        }
    }

    // Reports the stage of the number at a place if it has changed. Returns whether it has a leg.
    fn report_change<J: LedgerSet, R: Wait, V: Viewer>(
        &mut self,
        context: &mut ReplayContext<'_, R, J, V>,
        place: usize,
        now: u64,
    ) -> Result<bool, Stop> {
        let number = u16::try_from(place.saturating_add(1)).unwrap_or(0);
        let stage = match self.status(context, number) {
            Some(status) => Some(status.stage),
            None => None,
        };
        let reported = if self.changes(place, stage) {
            context.viewer.staged(now, number, stage)
        } else {
            Ok(())
        };
        match reported {
            Ok(()) => Ok(stage.is_some()),
            Err(stop) => Err(stop),
        }
    }

    // Stores a reported stage. Returns whether it has changed.
    fn changes(&mut self, place: usize, stage: Option<Stage>) -> bool {
        match self.reported.get_mut(place) {
            Some(reported) if *reported != stage => {
                *reported = stage;
                true
            }
            _ => false,
        }
    }
}
