//! Log lines about one peer.
use crate::lines::{address_of, log_count, log_line, more_than};
use exchange_core::{PeerLosses, Rejection, refusal_name};
use log::{Level, Log};
use peer_plan::{Endpoint, PeerId};
use service_state::{
    AUTH_FAILURES, AuthFailure, Hearing, News, PeerMarksRead, REFUSALS, REJECTIONS, Reach,
    ServiceWatch, news_of, reach_of,
};
use std::iter;

// Returns the level and the wording for datagrams that were turned away. A caller without a token asks for one, so that is
// no warning.
fn report_of(rejection: Rejection) -> (Level, &'static str) {
    match rejection {
        Rejection::NoNumber => (Level::Warn, "rejected NoNumber"),
        Rejection::Draining => (Level::Info, "rejected Draining"),
        Rejection::Registration => (Level::Warn, "rejected Registration"),
        Rejection::CallToken => (Level::Info, "call tokens given on request"),
        Rejection::ManyEntries => (Level::Warn, "trunk frames with too many entries of a call"),
        Rejection::Reflection => (Level::Warn, "challenges of this exchange sent back"),
    }
}

// The log's state for a peer: the last logged counts, and those that the next round logs.
#[derive(Clone, Copy)]
pub(crate) struct PeerLog {
    hearing: Hearing,
    pub(crate) news: Option<News>,
    // As it was logged, and as it is.
    reach: Reach,
    reach_now: Reach,
    legs: u64,
    legs_ended: u64,
    // The legs that it has now, and the legs that had ended when these were counted.
    pub(crate) legs_now: u16,
    legs_ended_now: u64,
    turned_away: u64,
    lost: PeerLosses,
    pub(crate) lost_now: PeerLosses,
    // In the order of `REFUSALS`.
    refused: [u64; REFUSALS.len()],
    // In the order of `REJECTIONS`.
    rejected: [u64; REJECTIONS.len()],
    // In the order of `AUTH_FAILURES`.
    unauthenticated: [u64; AUTH_FAILURES.len()],
}

impl PeerLog {
    // Returns a state in which nothing was logged yet.
    pub(crate) fn new() -> PeerLog {
        PeerLog {
            hearing: Hearing::Never,
            news: None,
            reach: Reach::Unknown,
            reach_now: Reach::Unknown,
            legs: 0,
            legs_ended: 0,
            legs_now: 0,
            legs_ended_now: 0,
            turned_away: 0,
            lost: PeerLosses::default(),
            lost_now: PeerLosses::default(),
            refused: [0; REFUSALS.len()],
            rejected: [0; REJECTIONS.len()],
            unauthenticated: [0; AUTH_FAILURES.len()],
        }
    }

    // Stores the counts of a moment. Returns whether the peer has fallen silent.
    pub(crate) fn see(&mut self, marks: PeerMarksRead, now: u64, limit: u64) -> bool {
        let (hearing, news) = news_of(self.hearing, marks.heard, now, limit);
        self.hearing = hearing;
        self.news = news;
        self.legs_ended_now = marks.legs_ended;
        match news {
            Some(News::Silent(_)) => true,
            _ => false,
        }
    }

    // Notes whether it is there, by when its last sign of life came and when a run of POKEs began that it didn't answer.
    pub(crate) fn note_reach(&mut self, heard: Option<u64>, unanswered_since: Option<u64>) {
        self.reach_now = reach_of(heard, unanswered_since);
    }

    // Logs that it became unreachable, or that it is there again.
    pub(crate) fn log_reach<L: Log>(&mut self, log: &L, name: &str, now: u64) {
        match (self.reach, self.reach_now) {
            (Reach::Unreachable(_), Reach::Unreachable(_)) => return,
            (_, Reach::Unreachable(since)) => {
                let ms = now.saturating_sub(since);
                let line = format_args!("{name} is unreachable: no sign of life for {ms} ms");
                log_line(log, Level::Warn, &line);
            }
            (Reach::Unreachable(since), _) => {
                let seconds = now.saturating_sub(since) / 1000;
                let line = format_args!("{name} is reachable again after {seconds} s");
                log_line(log, Level::Info, &line);
            }
            _ => {}
        }
        self.reach = self.reach_now;
    }

    // Logs the number of legs that began and that ended in a round. A leg that did both counts as both.
    pub(crate) fn log_legs<L: Log>(&mut self, log: &L, name: &str) {
        let legs = u64::from(self.legs_now);
        let ended = more_than(&mut self.legs_ended, self.legs_ended_now);
        let begun = legs.saturating_add(ended).saturating_sub(self.legs);
        self.legs = legs;
        if begun > 0 {
            log_line(
                log,
                Level::Info,
                &format_args!("legs of {name} that began: {begun}"),
            );
        }
        if ended > 0 {
            log_line(
                log,
                Level::Info,
                &format_args!("legs of {name} that ended: {ended}"),
            );
        }
    }

    // Logs the frames, and the octets of media, lost on the way to the peer in a round of `seconds` seconds.
    pub(crate) fn log_losses<L: Log>(&mut self, log: &L, name: &str, seconds: u64) {
        let (logged, now) = (&mut self.lost, self.lost_now);
        let kinds = [
            ("full", more_than(&mut logged.outbox.full, now.outbox.full)),
            ("mini", more_than(&mut logged.outbox.mini, now.outbox.mini)),
            (
                "trunk",
                more_than(&mut logged.outbox.trunk, now.outbox.trunk),
            ),
        ];
        for (kind, lost) in kinds {
            let what = format_args!("{kind} frames to {name} lost by a full outbox");
            log_count(log, Level::Warn, &what, lost, seconds);
        }
        let dropped = more_than(&mut logged.queue, now.queue);
        let what = format_args!("octets of media to {name} dropped by a full trunk queue");
        log_count(log, Level::Warn, &what, dropped, seconds);
    }

    // Logs the number of its calls that failed to authenticate in a round of `seconds` seconds.
    fn log_authentication<L: Log>(
        &mut self,
        log: &L,
        watch: &ServiceWatch,
        peer: PeerId,
        name: &str,
        from: Endpoint,
        seconds: u64,
    ) {
        for (logged, failure) in iter::zip(self.unauthenticated.iter_mut(), &AUTH_FAILURES) {
            let failed = more_than(logged, watch.unauthenticated(peer, *failure));
            let why = match failure {
                AuthFailure::WrongAnswer => "failed",
                AuthFailure::NoAnswer => "wasn't answered",
            };
            let from = address_of(from);
            let what = format_args!("authentication of {name} at {from} {why}");
            log_count(log, Level::Warn, &what, failed, seconds);
        }
    }

    // Logs the number of datagrams that were refused, rejected and turned away in a round of `seconds` seconds.
    pub(crate) fn log_refusals<L: Log>(
        &mut self,
        log: &L,
        watch: &ServiceWatch,
        peer: PeerId,
        name: &str,
        from: Endpoint,
        seconds: u64,
    ) {
        for (logged, refusal) in iter::zip(self.refused.iter_mut(), &REFUSALS) {
            let refused = more_than(logged, watch.refused_for(peer, *refusal));
            let refusal = refusal_name(*refusal);
            let what = format_args!("refused {refusal} from {name}");
            log_count(log, Level::Warn, &what, refused, seconds);
        }
        for (logged, rejection) in iter::zip(self.rejected.iter_mut(), &REJECTIONS) {
            let rejected = more_than(logged, watch.rejected(peer, *rejection));
            let (level, reported) = report_of(*rejection);
            let what = format_args!("{reported} from {name}");
            log_count(log, level, &what, rejected, seconds);
        }
        self.log_authentication(log, watch, peer, name, from, seconds);
        let turned_away = more_than(&mut self.turned_away, watch.marks(peer).turned_away);
        let what = format_args!("turned away from {name}");
        log_count(log, Level::Info, &what, turned_away, seconds);
    }
}
