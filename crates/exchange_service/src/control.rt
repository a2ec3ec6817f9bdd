//! The service's own thread, next to the workers. It answers clients of the control socket and of the metrics' address,
//! writes the log, and drains the exchange at a stop.
use crate::journal::Journal;
use crate::running::Settings;
use crate::service_context::ServiceContext;
use control_requests::{Request, Urgency};
use control_server::{Clients, Door, NotBound};
use exchange_core::losses_of;
use log::{Log, warn};
use peer_lock::LedgerSet;
use peer_plan::PeerId;
use service_api::{ApiHandler, Drain, KeptAnswer, answer_scrape, make_scrape};
use service_log::LogState;
use service_state::SocketTable;
use std::alloc::{AllocError, Global};
use std::fs::{File, Files};
use std::net::Net;
use std::random::RandomSource;
use std::sync::Wait;
use std::time::{Clock, Instant};

// The longest wait, in milliseconds: after it the thread looks for silent clients, due log lines, and the end of a drain.
const WAIT_MS: u64 = 100;

// The time for which queries are answered in a round, and then scrapes, in milliseconds. Each round answers one of each
// that wait, so that none waits for ever.
const ROUND_MS: u64 = 20;

// The time for which answers are still sent once the workers are to end, in milliseconds.
const END_MS: u64 = 500;

/// The listeners with their clients, the answer to scrapes, and the system's table of sockets until a thread takes it.
#[derive(Drop)]
pub(crate) struct Control<'s> {
    settings: &'s Settings<'s>,
    alloc: Global,
    clients: Clients,
    kept: KeptAnswer,
    table: Option<SocketTable>,
    // Whether clients still wait for answers because a round was too short.
    is_behind: bool,
    // The moment at which this thread saw that the workers are to end.
    ended: Option<u64>,
}

impl<'s> Control<'s> {
    /// Opens the listeners that the settings ask for. They have no clients yet.
    ///
    /// `NotBound` has the name of the refusal. Then the file of the control socket is gone.
    pub(crate) fn open<R: Files<File = File> + Net + RandomSource, D>(
        context: &ServiceContext<'s, R, D>,
    ) -> Result<Control<'s>, NotBound> {
        let ServiceContext {
            rt,
            alloc,
            settings,
            ..
        } = *context;
        let clients = match Clients::new(rt, alloc) {
            Ok(clients) => clients,
            Err(error) => return Err(NotBound::of(&error, "Control")),
        };
        let mut control = Control {
            settings,
            alloc,
            clients,
            kept: KeptAnswer::new(alloc),
            table: SocketTable::open(rt),
            is_behind: false,
            ended: None,
        };
        match control.clients.bind(rt, settings.control, settings.metrics) {
            Ok(()) => Ok(control),
            Err(fault) => {
                control.close(rt);
                Err(fault)
            }
        }
    }

    /// Takes the system's table of sockets, if there is one.
    pub(crate) fn take_table(&mut self) -> Option<SocketTable> {
        self.table.take()
    }

    /// Removes the file of the control socket, if it is bound and still there.
    pub(crate) fn close<R: Files>(&mut self, rt: &R) {
        if let Some(path) = self.settings.control {
            self.clients.unbind(rt, path);
        }
    }

    // Watches for the end of standard input, if that stops the service.
    fn begin<L: Log>(&mut self, log: &L) {
        if self.settings.stops_with_input && self.clients.await_end_of_input().is_err() {
            warn!(log; "standard input is a file, or closed: its end isn't awaited");
        }
    }

    /// Answers clients and logs until the workers are to end and each answer is sent.
    pub(crate) fn run<R: Clock + Eprint + Wait, J: LedgerSet>(
        &mut self,
        log: &Journal<'_, R>,
        handler: &mut ApiHandler<'_, J>,
        opened: Instant,
    ) {
        self.begin(log);
        // Nothing is logged if there is no memory for the log's state.
        let (calls, trace) = (self.settings.calls, self.settings.trace_path());
        let (plan, watch) = (handler.exchange.plan(), handler.watch);
        let now = moment(log.rt(), opened, 0);
        let lines = self.settings.call_lines;
        let mut state = LogState::new(log, self.alloc, plan, watch, calls, trace, lines, now).ok();
        let now = self.run_rounds(log, handler, &mut state, opened);
        if let Some(state) = &mut state {
            state.end_rounds();
            self.log_due_lines(log, handler, state, now);
        }
    }

    // Runs the rounds of `run`. Returns the moment of the last one.
    fn run_rounds<R: Clock + Eprint + Wait, J: LedgerSet>(
        &mut self,
        log: &Journal<'_, R>,
        handler: &mut ApiHandler<'_, J>,
        state: &mut Option<LogState<'_>>,
        opened: Instant,
    ) -> u64 {
        let rt = log.rt();
        let mut drain = Drain::new(self.settings.drain_ms);
        let mut now = 0;
        for _ in rt.forever() {
            self.clients.wait(if self.is_behind { 0 } else { WAIT_MS });
            // The end of the input stops the service as one `POST /stop` does.
            if self.clients.takes_end_of_input() {
                handler.watch.lifecycle().stop();
            }
            now = moment(rt, opened, now);
            self.clients.admit(now);
            self.serve_all(rt, handler, opened, now);
            if let Some(state) = state {
                self.log_due_lines(log, handler, state, now);
            }
            if self.end_round(rt, handler, &mut drain, now) {
                break;
            }
        }
        now
    }

    // Ends a round once clients were served and the log was written. Returns whether it was the last.
    fn end_round<R: Clock + Wait, J: LedgerSet>(
        &mut self,
        rt: &R,
        handler: &mut ApiHandler<'_, J>,
        drain: &mut Drain,
        now: u64,
    ) -> bool {
        drain.go_on(rt, handler, now);
        handler.look_for_rest(rt, self.alloc, now);
        handler.watch.lifecycle().has_ended() && self.are_answered(now)
    }

    // Returns whether clients get no more answers once the workers are to end: all are sent, or the time for them is over.
    fn are_answered(&mut self, now: u64) -> bool {
        let ended = self.ended.unwrap_or(now);
        self.ended = Some(ended);
        !self.clients.is_answering() || now.saturating_sub(ended) >= END_MS
    }

    // Writes the log lines that are due. Legs are counted, and losses are read, only when the log reports them.
    fn log_due_lines<R: Clock + Eprint + Wait, J: LedgerSet>(
        &mut self,
        log: &Journal<'_, R>,
        handler: &mut ApiHandler<'_, J>,
        state: &mut LogState<'_>,
        now: u64,
    ) {
        let (rt, exchange) = (log.rt(), handler.exchange);
        let logs_losses = state.logs_losses(now);
        let logs_reach = state.logs_reach(now);
        for place in 0..exchange.plan().peer_count() {
            let peer = PeerId::new(place);
            if state.see_peer(log, peer, now) {
                state.note_legs(peer, exchange.leg_count(rt, &mut handler.pass, peer));
            }
            if logs_losses {
                state.note_losses(peer, losses_of(rt, exchange, &mut handler.pass, peer));
            }
            if logs_reach {
                let pokes = exchange.pokes(rt, &mut handler.pass, peer);
                state.note_unanswered(
                    peer,
                    pokes.unanswered_since(exchange.plan().rules(peer), now),
                );
            }
        }
        state.log_changes(rt, log, self.alloc, now);
    }

    // Serves each client as far as the system allows: first orders, then queries, then scrapes.
    fn serve_all<R: Clock + Wait, J: LedgerSet>(
        &mut self,
        rt: &R,
        handler: &mut ApiHandler<'_, J>,
        opened: Instant,
        now: u64,
    ) {
        for place in 0..self.clients.count() {
            self.clients.hear(place, now);
        }
        self.serve_orders(rt, handler, now);
        self.serve_in_time(rt, handler, Urgency::Query, opened, now);
        self.make_metrics(rt, handler, opened, now);
        self.serve_in_time(rt, handler, Urgency::Metrics, opened, now);
        for place in 0..self.clients.count() {
            self.clients.speak(place, now);
        }
        self.is_behind = self.is_waited_for();
        self.clients.close_ended();
    }

    // Answers all clients that give an order.
    fn serve_orders<R: Wait, J: LedgerSet>(
        &mut self,
        rt: &R,
        handler: &mut ApiHandler<'_, J>,
        now: u64,
    ) {
        for place in 0..self.clients.count() {
            if self.asks_at(place, Urgency::Order) {
                self.serve(rt, handler, place, now);
            }
        }
    }

    // Returns whether the client at a place asks at this urgency. Requests at the other listener aren't parsed for that.
    fn asks_at(&self, place: usize, urgency: Urgency) -> bool {
        let is_there = match self.clients.door(place) {
            Some(Door::Control) => urgency != Urgency::Metrics,
            Some(Door::Metrics) => urgency == Urgency::Metrics,
            None => false,
        };
        is_there && self.clients.urgency(place) == Some(urgency)
    }

    // Reads new orders within a round, and answers them.
    fn serve_new_orders<R: Wait, J: LedgerSet>(
        &mut self,
        rt: &R,
        handler: &mut ApiHandler<'_, J>,
        now: u64,
    ) {
        self.clients.admit_control(now);
        for place in 0..self.clients.count() {
            if matches!(self.clients.door(place), Some(Door::Control)) {
                self.clients.hear(place, now);
            }
        }
        self.serve_orders(rt, handler, now);
    }

    // Answers clients of this urgency one after another until the round's time is over, and at least one.
    fn serve_in_time<R: Clock + Wait, J: LedgerSet>(
        &mut self,
        rt: &R,
        handler: &mut ApiHandler<'_, J>,
        urgency: Urgency,
        opened: Instant,
        now: u64,
    ) {
        let begun = moment(rt, opened, now);
        for place in 0..self.clients.count() {
            if self.asks_at(place, urgency) {
                self.serve(rt, handler, place, now);
                if moment(rt, opened, begun).saturating_sub(begun) >= ROUND_MS {
                    return;
                }
            }
        }
    }

    // Makes the metrics if a client waits for them and the kept ones are old. Between their parts it answers new orders.
    fn make_metrics<R: Clock + Wait, J: LedgerSet>(
        &mut self,
        rt: &R,
        handler: &mut ApiHandler<'_, J>,
        opened: Instant,
        now: u64,
    ) {
        if self.first_at(Urgency::Metrics).is_none() {
            return;
        }
        let mut now = now;
        for _ in rt.forever() {
            if self.kept.is_fresh(now) {
                return;
            }
            now = moment(rt, opened, now);
            if make_scrape(rt, self.alloc, handler, &mut self.kept, now).is_err() {
                return self.end_scraper();
            }
            self.serve_new_orders(rt, handler, now);
        }
    }

    // Ends the first client that waits for metrics, for which there was no memory.
    fn end_scraper(&mut self) {
        if let Some(place) = self.first_at(Urgency::Metrics) {
            self.clients.answer(place, Err(AllocError));
        }
    }

    // Returns the place of the first client of this urgency.
    fn first_at(&self, urgency: Urgency) -> Option<usize> {
        for place in 0..self.clients.count() {
            if self.asks_at(place, urgency) {
                return Some(place);
            }
        }
        None
    }

    // Returns whether a client waits for its answer.
    fn is_waited_for(&self) -> bool {
        for place in 0..self.clients.count() {
            if self.clients.urgency(place).is_some() {
                return true;
            }
        }
        false
    }

    // Answers a client at once if its request is complete, and not if it waits for metrics.
    fn serve<R: Wait, J: LedgerSet>(
        &mut self,
        rt: &R,
        handler: &mut ApiHandler<'_, J>,
        place: usize,
        now: u64,
    ) {
        let alloc = self.alloc;
        let answer = match self.clients.request(place) {
            Some((Door::Control, request)) => {
                Some(control_answer(rt, alloc, &request, handler, now))
            }
            Some((Door::Metrics, request)) => answer_scrape(alloc, &self.kept, &request, now),
            None => None,
        };
        if let Some(octets) = answer {
            self.clients.answer(place, octets);
            self.clients.speak(place, now);
        }
    }
}

// Returns the answer to a complete request at the control socket.
fn control_answer<R: Wait, J: LedgerSet>(
    rt: &R,
    alloc: Global,
    request: &Request<'_>,
    handler: &mut ApiHandler<'_, J>,
    now: u64,
) -> Result<Vec<u8>, AllocError> {
    match handler.answer(rt, alloc, request, now) {
        Ok(answer) => answer.octets(alloc),
        Err(error) => Err(error),
    }
}

// Returns milliseconds since the exchange was opened, or `last` if the clock can't be read.
fn moment<R: Clock>(rt: &R, opened: Instant, last: u64) -> u64 {
    match opened.elapsed(rt) {
        Ok(elapsed) => u64::try_from(elapsed.as_millis()).unwrap_or(last),
        Err(_) => last,
    }
}
