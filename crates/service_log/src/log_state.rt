//! The log of a running service, and the rounds in which it is written.

use crate::drop_lines::{log_drops, log_unknown};
use crate::end_lines::{CallLines, ShownNumbers, log_leg};
use crate::lines::{log_count, log_line, more_than};
use crate::news::{log_news, silence_limit};
use crate::output_log::OutputLog;
use crate::peer_lines::PeerLog;
use crate::strangers::Strangers;
use call_files::{Fault, Trouble};
use call_records::CallRow;
use exchange_core::{PeerLosses, Refusal, ServiceStage, Watch, refusal_name};
use log::{Level, Log, log_enabled};
use peer_plan::{Endpoint, PeerId, Plan};
use service_state::{NOTED, NoDrops, Rounds, STRANGERS, ServiceWatch, Wanted};
use std::alloc::{AllocError, Global};
use std::mem;
use std::sync::Wait;

// The length of a round for ended legs, in milliseconds.
const LEGS_MS: u64 = 1000;

// The length of a round for refusals, losses, strangers, faults and drops, in milliseconds.
const REFUSALS_MS: u64 = 10_000;

/// The state of a service's log: the last logged values of the service and of its peers, and the rounds of the log.
#[derive(Drop)]
pub struct LogState<'s> {
    plan: &'s Plan,
    watch: &'s ServiceWatch,
    // The path of the file of call records, and of the folder of the trace.
    calls_path: Option<&'s str>,
    trace_path: Option<&'s str>,
    stage: ServiceStage,
    drains: bool,
    peers: Vec<PeerLog>,
    // The drops of each worker's socket, and why they aren't known.
    drops: Vec<u64>,
    unknown: Option<NoDrops>,
    faults: u64,
    calls: OutputLog<Trouble>,
    trace: OutputLog<Fault>,
    strangers: Strangers,
    call_lines: CallLines,
    lost_ends: u64,
    // Spare lists for strangers, for refusals, and for ended legs.
    spare: Vec<Endpoint>,
    spare_refusals: Vec<(PeerId, Refusal)>,
    spare_ends: Vec<CallRow>,
    legs: Rounds,
    reach: Rounds,
    refusals: Rounds,
}

// Returns rounds of this length, in milliseconds, the first of which begins at this moment.
fn rounds_of(period: u64, since: u64) -> Rounds {
    Rounds { period, since }
}

impl<'s> LogState<'s> {
    /// Returns the log of a service in which nothing was logged yet. The service runs `plan` and counts in `watch`. `now`
    /// is the moment it began, in milliseconds since the exchange was opened. `calls` is the path of the file of call
    /// records and `trace` that of the trace's folder, if these are wanted. `call_lines` says how calls are logged.
    ///
    /// Returns `AllocError` if a request for memory was refused.
    pub fn new<L: Log>(
        log: &L,
        alloc: Global,
        plan: &'s Plan,
        watch: &'s ServiceWatch,
        calls: Option<&'s str>,
        trace: Option<&'s str>,
        call_lines: CallLines,
        now: u64,
    ) -> Result<LogState<'s>, AllocError> {
        let strangers = Strangers::new(alloc)?;
        let mut logged = LogState {
            plan,
            watch,
            calls_path: calls,
            trace_path: trace,
            stage: ServiceStage::Serving,
            drains: false,
            peers: Vec::new(alloc),
            drops: Vec::new(alloc),
            unknown: None,
            faults: 0,
            calls: OutputLog::new(),
            trace: OutputLog::new(),
            strangers,
            call_lines,
            lost_ends: 0,
            spare: Vec::new(alloc),
            spare_refusals: Vec::new(alloc),
            spare_ends: Vec::new(alloc),
            legs: rounds_of(LEGS_MS, now),
            reach: rounds_of(LEGS_MS, now),
            refusals: rounds_of(REFUSALS_MS, now),
        };
        match logged.make_room(call_lines.wanted(log)) {
            Ok(()) => Ok(logged),
            Err(error) => Err(error),
        }
    }

    // Reserves room for the plan's peers and workers, for strangers, and for the wanted events.
    fn make_room(&mut self, wanted: Wanted) -> Result<(), AllocError> {
        let plan = self.plan;
        for _ in 0..plan.peer_count() {
            self.peers.push(PeerLog::new())?;
        }
        for _ in plan.workers() {
            self.drops.push(0)?;
        }
        if wanted.refusals {
            self.spare_refusals.reserve_exact(NOTED)?;
        }
        if wanted.ends {
            self.spare_ends.reserve_exact(NOTED)?;
        }
        self.spare.reserve_exact(STRANGERS)
    }

    /// Reads the counts of a peer for the next `log_changes`. `now` is in milliseconds since the exchange was opened. Returns whether
    /// `log_changes` also logs the peer's number of legs; then call `note_legs` first. It does so when the peer has fallen silent,
    /// and once a second if `Info` is logged.
    pub fn see_peer<L: Log>(&mut self, log: &L, peer: PeerId, now: u64) -> bool {
        let (plan, watch) = (self.plan, self.watch);
        if peer.get() >= plan.peer_count() {
            return false;
        }
        let limit = silence_limit(plan, peer);
        let mut legs = self.legs;
        match self.peers.get_mut(peer.index()) {
            Some(logged) => {
                let is_silent = logged.see(watch.marks(peer), now, limit);
                is_silent || (legs.due(now).is_some() && log_enabled!(log; Level::Info))
            }
            None => false,
        }
    }

    /// Stores the number of legs of a peer, counted right after `see_peer`.
    pub fn note_legs(&mut self, peer: PeerId, legs: u16) {
        if let Some(logged) = self.peers.get_mut(peer.index()) {
            logged.legs_now = legs;
        }
    }

    /// Returns whether `log_changes` at this moment logs the losses on the way to peers; then call `note_losses` for each peer
    /// first. `now` is in milliseconds since the exchange was opened.
    pub fn logs_losses(&self, now: u64) -> bool {
        let mut rounds = self.refusals;
        rounds.due(now).is_some()
    }

    /// Whether the next `log_changes` at a moment, in milliseconds since the exchange was opened, logs which peers are there. Then
    /// `note_unanswered` has to come first, for each peer.
    pub fn logs_reach(&self, now: u64) -> bool {
        let mut rounds = self.reach;
        rounds.due(now).is_some()
    }

    /// Notes the moment of the first POKE of a run that a peer didn't answer; `None` if there is no such run.
    pub fn note_unanswered(&mut self, peer: PeerId, unanswered_since: Option<u64>) {
        let watch = self.watch;
        if let Some(logged) = self.peers.get_mut(peer.index()) {
            logged.note_reach(watch.marks(peer).heard, unanswered_since);
        }
    }

    /// Stores the losses on the way to a peer.
    pub fn note_losses(&mut self, peer: PeerId, losses: PeerLosses) {
        if let Some(logged) = self.peers.get_mut(peer.index()) {
            logged.lost_now = losses;
        }
    }

    // Logs that the service stops.
    fn log_stage<L: Log>(&mut self, log: &L, stage: ServiceStage) {
        if stage == self.stage {
            return;
        }
        self.stage = stage;
        let line = match stage {
            ServiceStage::Serving => return,
            ServiceStage::Draining => "stops: no call is opened, each leg is hung up",
            ServiceStage::Ended => "the workers end",
        };
        log_line(log, Level::Info, &line);
    }

    // Logs that new calls are rejected from now on, or accepted again.
    fn log_drain<L: Log>(&mut self, log: &L, drains: bool) {
        if drains == self.drains {
            return;
        }
        self.drains = drains;
        let line = match drains {
            true => "drains: new calls are rejected",
            false => "drains no more: new calls are taken",
        };
        log_line(log, Level::Info, &line);
    }

    // Logs the number of legs left while the service drains.
    fn log_left<L: Log>(&mut self, log: &L) {
        if self.drains && self.stage == ServiceStage::Serving {
            let mut legs: u32 = 0;
            for peer in &self.peers {
                legs = legs.saturating_add(u32::from(peer.legs_now));
            }
            log_line(
                log,
                Level::Info,
                &format_args!("drains: {legs} legs are left"),
            );
        }
    }

    // Logs the peers that answered for the first time, fell silent, or answered again.
    fn log_peers<L: Log>(&mut self, log: &L) {
        let plan = self.plan;
        for place in 0..plan.peer_count() {
            let peer = PeerId::new(place);
            if let Some(logged) = self.peers.get_mut(peer.index()) {
                if let Some(news) = logged.news.take() {
                    log_news(log, plan.name(peer), news, logged.legs_now);
                }
            }
        }
    }

    // Which peers became unreachable, and which are there again.
    fn log_reach<L: Log>(&mut self, log: &L, now: u64) {
        let plan = self.plan;
        for place in 0..plan.peer_count() {
            let peer = PeerId::new(place);
            if let Some(logged) = self.peers.get_mut(peer.index()) {
                logged.log_reach(log, plan.name(peer), now);
            }
        }
    }

    // Logs the legs that began and ended in a round, if `Info` is logged.
    fn log_legs<L: Log>(&mut self, log: &L) {
        if !log_enabled!(log; Level::Info) {
            return;
        }
        let plan = self.plan;
        for place in 0..plan.peer_count() {
            let peer = PeerId::new(place);
            if let Some(logged) = self.peers.get_mut(peer.index()) {
                logged.log_legs(log, plan.name(peer));
            }
        }
    }

    // Logs trouble with the file of call records and with the trace, if the service writes them.
    fn log_files<L: Log>(&mut self, log: &L) {
        let watch = self.watch;
        if let Some(path) = self.calls_path {
            if let Some(calls) = watch.calls() {
                self.calls.log_changes(log, path, calls.state());
            }
        }
        if let Some(path) = self.trace_path {
            if let Some(trace) = watch.trace() {
                self.trace.log_changes(log, path, trace.state());
            }
        }
    }

    // Logs the refusals and losses of a round of `seconds` seconds.
    fn log_refusals<L: Log>(&mut self, log: &L, seconds: u64) {
        let (plan, watch) = (self.plan, self.watch);
        for place in 0..plan.peer_count() {
            let peer = PeerId::new(place);
            let name = plan.name(peer);
            if let Some(logged) = self.peers.get_mut(peer.index()) {
                logged.log_refusals(log, watch, peer, name, plan.endpoint(peer), seconds);
                logged.log_losses(log, name, seconds);
            }
        }
    }

    // Takes the endpoints of new strangers.
    fn see_strangers<R: Wait>(&mut self, rt: &R, alloc: Global) {
        let spare = mem::replace(&mut self.spare, Vec::new(alloc));
        let mut seen = self.watch.take_strangers(rt, spare);
        for from in &seen {
            self.strangers.see(*from);
        }
        seen.clear();
        self.spare = seen;
    }

    // Logs each refused datagram, by its peer and the name of the refusal.
    fn log_each_refusal<L: Log, R: Wait>(&mut self, rt: &R, log: &L, alloc: Global) {
        let spare = mem::replace(&mut self.spare_refusals, Vec::new(alloc));
        let mut refused = self.watch.take_refusals(rt, spare);
        for (peer, refusal) in &refused {
            if peer.get() < self.plan.peer_count() {
                let (name, refusal) = (self.plan.name(*peer), refusal_name(*refusal));
                let line = format_args!("refused {refusal} from {name}");
                log_line(log, Level::Debug, &line);
            }
        }
        refused.clear();
        self.spare_refusals = refused;
    }

    // Logs each ended leg.
    fn log_each_end<L: Log, R: Wait>(&mut self, rt: &R, log: &L, alloc: Global) {
        let spare = mem::replace(&mut self.spare_ends, Vec::new(alloc));
        let mut ended = self.watch.take_ends(rt, spare);
        let (level, numbers) = match self.call_lines.are_logged {
            true => (Level::Info, self.call_lines.numbers),
            false => (Level::Debug, ShownNumbers::No),
        };
        for leg in &ended {
            log_leg(log, alloc, self.plan, leg, level, numbers);
        }
        ended.clear();
        self.spare_ends = ended;
    }

    // Logs that the drops at the workers' sockets aren't known, once for each reason in a row.
    fn log_unknown<L: Log>(&mut self, log: &L) {
        let unknown = self.watch.drops().unknown();
        if unknown != self.unknown {
            self.unknown = unknown;
            if let Some(why) = unknown {
                log_unknown(log, why);
            }
        }
    }

    // Logs the refusals, losses, strangers, faults and drops of a round of `lasted` milliseconds.
    fn log_round<L: Log>(&mut self, log: &L, alloc: Global, lasted: u64) {
        let (watch, seconds) = (self.watch, lasted / 1000);
        self.log_left(log);
        self.log_refusals(log, seconds);
        self.strangers.log_line(log, watch.strangers(), seconds);
        let faults = more_than(&mut self.faults, watch.faults());
        log_count(log, Level::Warn, &"faults of the sockets", faults, seconds);
        if self.call_lines.wanted(log).ends {
            let lost = more_than(&mut self.lost_ends, watch.lost_ends());
            log_count(
                log,
                Level::Warn,
                &"ended legs without a line",
                lost,
                seconds,
            );
        }
        if let Some(calls) = watch.calls() {
            self.calls
                .log_lost(log, "call records lost", calls.state().lost, seconds);
        }
        if let Some(trace) = watch.trace() {
            self.trace.log_lost(
                log,
                "calls of the exchange that the trace lacks",
                trace.state().lost,
                seconds,
            );
        }
        match watch.drops().counts(alloc) {
            Ok(counts) => log_drops(log, &mut self.drops, &counts, seconds),
            Err(_) => log_unknown(log, NoDrops::NoMemory),
        }
    }

    /// Logs all that is due at `now`, in milliseconds since the exchange was opened. `see_peer` must have read each peer at
    /// that moment. Each call logs the stage, the peers, the file of call records, the trace, whether drops are known, and the
    /// events that the log wants one by one. Once a second it logs legs. Every ten seconds it logs refusals, losses,
    /// strangers, faults, lost rows and drops.
    pub fn log_changes<L: Log, R: Wait>(&mut self, rt: &R, log: &L, alloc: Global, now: u64) {
        self.log_stage(log, self.watch.stage());
        self.log_drain(log, self.watch.lifecycle().drains());
        self.log_peers(log);
        self.see_strangers(rt, alloc);
        self.log_each_refusal(rt, log, alloc);
        self.log_each_end(rt, log, alloc);
        self.log_files(log);
        self.log_unknown(log);
        if self.legs.due(now).is_some() {
            self.log_legs(log);
        }
        if self.reach.due(now).is_some() {
            self.log_reach(log, now);
        }
        if let Some(lasted) = self.refusals.due(now) {
            self.log_round(log, alloc, lasted);
        }
    }

    /// Makes all rounds due, so that the next `log_changes` logs the rest at the end.
    pub fn end_rounds(&mut self) {
        self.legs.period = 0;
        self.reach.period = 0;
        self.refusals.period = 0;
    }
}
