//! The current metrics of a service.
ghost use Rattle.std.specs.Prelude.{◌≡◌, ◌<◌, ◌⊎◌, Some, codes, false, true, length};
ghost use Rattle.std.specs.Prelude.{IfOk, IfSome, IsNone, IsSome, IsSomeAnd, OnErr};
ghost use Rattle.control_requests.specs.Response.{refusal_text};
ghost use Rattle.control_requests.specs.declared.response.StatusCode.TheVariants as status;
ghost use Rattle.service_api.specs.Figures.{ShowsFigures};
ghost use Rattle.service_api.specs.Kept.{KeepsAnswer, is_fresh};
ghost use Rattle.service_state.specs.Scrape.{scrape_of};
ghost use Rattle.service_state.specs.declared.scrape.Scrape.TheVariants as scrape;

use crate::by_name::{push_failed_calls, push_failures, push_refusals, push_rejections};
use crate::desk::ApiHandler;
use crate::kept_answer::KeptAnswer;
use crate::lost_frames::push_losses;
use control_requests::{Methods, Request, Response, StatusCode};
use exchange_core::{Exchange, NoGate, Pass};
use peer_lock::LedgerSet;
use peer_plan::PeerId;
use service_state::{
    Family, Kind, Label, Labels, Metrics, PeerFigures, Sample, Scrape, ServiceWatch, reach_of,
    scrape_of,
};
use std::alloc::{AllocError, Global};
use std::iter;
use std::sync::Wait;

// The methods that the address of the metrics allows.
const GET: Methods = Methods {
    get: true,
    post: false,
    delete: false,
};

// The description of a metric family.
pub(crate) struct Told {
    pub(crate) kind: Kind,
    pub(crate) name: &'static str,
    pub(crate) help: &'static str,
}

const OF_SERVICE: [Told; 2] = [
    Told {
        kind: Kind::Counter,
        name: "iax_strangers_total",
        help: "Datagrams that came from no peer of the plan.",
    },
    Told {
        kind: Kind::Counter,
        name: "iax_socket_faults_total",
        help: "Calls of the workers' sockets that failed.",
    },
];

const DROPPED: Told = Told {
    kind: Kind::Counter,
    name: "iax_socket_drops_total",
    help: "Datagrams that the system dropped at the worker's socket.",
};

// The metrics of the file of call records.
const OF_CALLS: [Told; 3] = [
    Told {
        kind: Kind::Counter,
        name: "iax_call_records_written_total",
        help: "Records of ended call legs that were written to the file.",
    },
    Told {
        kind: Kind::Counter,
        name: "iax_call_records_lost_total",
        help: "Records of ended call legs that were lost because too many waited.",
    },
    Told {
        kind: Kind::Gauge,
        name: "iax_call_records_waiting",
        help: "Records of ended call legs that wait for the file.",
    },
];

const OF_TRACE: [Told; 3] = [
    Told {
        kind: Kind::Counter,
        name: "iax_trace_octets_written_total",
        help: "Octets that were written to the files of the trace.",
    },
    Told {
        kind: Kind::Counter,
        name: "iax_trace_calls_lost_total",
        help: "Datagrams, ticks and orders that the trace lacks.",
    },
    Told {
        kind: Kind::Gauge,
        name: "iax_trace_up",
        help: "Whether the trace is written: 0 once it can't be written to.",
    },
];

// Reads the current figures of a peer.
fn figures_of<'x, J: LedgerSet, R: Wait>(
    rt: &R,
    exchange: &'x Exchange<NoGate, J>,
    pass: &mut Pass<J>,
    watch: &ServiceWatch,
    peer: PeerId,
    now: u64,
) -> PeerFigures<'x>
    requires { peer < length exchange.now.peers }
    ensures { ShowsFigures exchange.now peer result pass.old pass.new }
{
    let legs = exchange.leg_count(rt, pass, peer);
    let sums = exchange.sums(rt, pass, peer);
    let marks = watch.marks(peer);
    let plan = exchange.plan();
    let pokes = exchange.pokes(rt, pass, peer);
    let unanswered_since = pokes.unanswered_since(plan.rules(peer), now);
    let reach = reach_of(marks.heard, unanswered_since);
    PeerFigures {
        name: plan.name(peer),
        legs,
        numbers: plan.range(peer).count,
        legs_ended: marks.legs_ended,
        silent_ms: marks.heard.map(|heard| now.saturating_sub(heard)),
        reach,
        unreachable_ms: reach.unreachable_ms(now),
        round_trip_ms: pokes.round_trip,
        received: marks.received,
        turned_away: marks.turned_away,
        sent: marks.sent,
        lost: marks.lost,
        accepted: sums.accepted,
        packed: sums.packed,
        queued: sums.queued,
        dropped: sums.dropped,
        quelched: sums.quelched,
    }
}

// Adds a family with this description.
pub(crate) fn push_family(
    alloc: Global,
    metrics: &mut Metrics,
    told: &Told,
    samples: &[Sample<'_>],
) -> Result<(), AllocError> {
    let family = Family {
        name: told.name,
        help: told.help,
        kind: told.kind,
        samples,
    };
    metrics.push(alloc, &family)
}

// Adds the current figures of all peers.
fn push_peers<J: LedgerSet, R: Wait>(
    rt: &R,
    alloc: Global,
    metrics: &mut Metrics,
    exchange: &Exchange<NoGate, J>,
    pass: &mut Pass<J>,
    watch: &ServiceWatch,
    now: u64,
) -> Result<(), AllocError> {
    let mut peers = Vec::new(alloc);
    for place in 0..exchange.plan().peer_count() {
        let peer = PeerId::new(place);
        peers.push(figures_of(rt, exchange, pass, watch, peer, now))?;
    }
    metrics.push_figures(alloc, &peers)
}

// Adds the datagrams that the system dropped at the workers' sockets, as far as they are known.
fn push_drops(
    alloc: Global,
    metrics: &mut Metrics,
    watch: &ServiceWatch,
) -> Result<(), AllocError> {
    let counts = watch.drops().counts(alloc)?;
    let mut samples = Vec::new(alloc);
    for count in &counts {
        if let Some(value) = count.drops {
            let labels = Labels::One(Label {
                name: "worker",
                value: &count.worker,
            });
            samples.push(Sample { labels, value })?;
        }
    }
    push_family(alloc, metrics, &DROPPED, &samples)
}

// Adds one value of the whole service for each family.
fn push_totals(
    alloc: Global,
    metrics: &mut Metrics,
    totals: &[Told],
    values: &[u64],
) -> Result<(), AllocError> {
    for (total, value) in iter::zip(totals, values) {
        let sample = Sample {
            labels: Labels::None,
            value: *value,
        };
        push_family(alloc, metrics, total, &[sample])?;
    }
    Ok(())
}

// Adds the totals of the service, of the file of call records, and of the trace.
fn push_all_totals(
    alloc: Global,
    metrics: &mut Metrics,
    watch: &ServiceWatch,
) -> Result<(), AllocError> {
    let service = [watch.strangers(), watch.faults()];
    push_totals(alloc, metrics, &OF_SERVICE, &service)?;
    if let Some(calls) = watch.calls() {
        let state = calls.state();
        let values = [state.written, state.lost, state.waiting];
        push_totals(alloc, metrics, &OF_CALLS, &values)?;
    }
    if let Some(trace) = watch.trace() {
        let state = trace.state();
        let is_up = u64::from(state.fault.is_none());
        let values = [state.written, state.lost, is_up];
        push_totals(alloc, metrics, &OF_TRACE, &values)?;
    }
    Ok(())
}

// Adds the part of the metrics with this number, if there is one. Each takes so little time that orders can be looked for
// between two parts.
fn push_part<J: LedgerSet, R: Wait>(
    rt: &R,
    alloc: Global,
    metrics: &mut Metrics,
    desk: &mut ApiHandler<'_, J>,
    part: u32,
    now: u64,
) -> Result<bool, AllocError> {
    let (exchange, watch) = (desk.exchange, desk.watch);
    match part {
        0 => push_peers(rt, alloc, metrics, exchange, &mut desk.pass, watch, now)?,
        1 => push_refusals(alloc, metrics, exchange.plan(), watch)?,
        2 => push_rejections(alloc, metrics, exchange.plan(), watch)?,
        3 => push_failures(alloc, metrics, exchange.plan(), watch)?,
        4 => push_failed_calls(alloc, metrics, exchange.plan(), watch)?,
        5 => push_losses(rt, alloc, metrics, exchange, &mut desk.pass)?,
        6 => push_all_totals(alloc, metrics, watch)?,
        7 => push_drops(alloc, metrics, watch)?,
        _ => return Ok(false),
    }
    Ok(true)
}

// Makes the next part of the metrics, or the answer once all are made.
fn make_part<J: LedgerSet, R: Wait>(
    rt: &R,
    alloc: Global,
    desk: &mut ApiHandler<'_, J>,
    kept: &mut KeptAnswer,
    now: u64,
) -> Result<(), AllocError>
    ensures once { (KeepsAnswer kept.old kept.new) ⊎ (kept.new.made ≡ Some now) }
    ensures kept { OnErr result (KeepsAnswer kept.old kept.new) }
{
    let part = kept.parts;
    if push_part(rt, alloc, &mut kept.metrics, desk, part, now)? {
        kept.count_part();
        return Ok(());
    }
    kept.finish(alloc, now)
}

/// Makes a part of the next answer to `GET /metrics`, unless the kept one is fresh. So the metrics are made at most once a
/// second. The last part makes them the kept answer. `now` is in milliseconds since the exchange was opened.
///
/// Returns `AllocError` if a request for memory was refused. Then the parts are dropped, and the next call begins anew.
pub fn make_scrape<J: LedgerSet, R: Wait>(
    rt: &R,
    alloc: Global,
    desk: &mut ApiHandler<'_, J>,
    kept: &mut KeptAnswer,
    now: u64,
) -> Result<(), AllocError>
    ensures fresh { is_fresh kept.old.made now ≡ true → KeepsAnswer kept.old kept.new }
    ensures once { (KeepsAnswer kept.old kept.new) ⊎ (kept.new.made ≡ Some now) }
    ensures err { OnErr result (KeepsAnswer kept.old kept.new) }
{
    if kept.is_fresh(now) {
        return Ok(());
    }
    let made = make_part(rt, alloc, desk, kept, now);
    if made.is_err() {
        let _dropped = kept.drop_parts(alloc);
    }
    made
}

// Returns an answer that names the refusal.
fn refusal(alloc: Global, status: StatusCode, why: &str) -> Result<Vec<u8>, AllocError>
    ensures { IfOk result (λ octets. octets.items ≡ refusal_text status why.now) }
{
    Response::error(alloc, status, why)?.octets(alloc)
}

/// Answers a request to the metrics' address, which serves `GET /metrics` alone. Returns the octets for the client: the kept
/// answer while it is fresh. Returns `None` while it isn't: then `make_scrape` has to make the next one. A refusal is an
/// answer too: 404 or 405. `now` is in milliseconds since the exchange was opened.
///
/// Returns `AllocError` if a request for memory was refused.
pub fn answer_scrape(
    alloc: Global,
    kept: &KeptAnswer,
    request: &Request<'_>,
    now: u64,
) -> Option<Result<Vec<u8>, AllocError>>
    ensures fresh { scrape_of request.now.method.now request.now.path.now ≡ scrape.Metrics →
        is_fresh kept.now.made now ≡ true → IsSome result }
    ensures given { scrape_of request.now.method.now request.now.path.now ≡ scrape.Metrics →
        IfSome result (λ answer. IfOk answer (λ octets. octets.items ≡ kept.now.octets.items)) }
    ensures old { scrape_of request.now.method.now request.now.path.now ≡ scrape.Metrics →
        is_fresh kept.now.made now ≡ false → IsNone result }
    ensures not_found { scrape_of request.now.method.now request.now.path.now ≡ scrape.NotFound →
        IsSomeAnd result (λ answer. IfOk answer (λ octets. octets.items ≡ refusal_text status.NotFound (codes "NotFound"))) }
    ensures not_allowed { scrape_of request.now.method.now request.now.path.now ≡ scrape.NotAllowed →
        IsSomeAnd result (λ answer. IfOk answer (λ octets. octets.items
        ≡ refusal_text (status.NotAllowed (record { get = true; post = false; delete = false })) (codes "NotAllowed"))) }
{
    match scrape_of(request.method, request.path) {
        Scrape::Metrics if kept.is_fresh(now) => Some(kept.given(alloc)),
        Scrape::Metrics => None,
        Scrape::NotFound => Some(refusal(alloc, StatusCode::NotFound, "NotFound")),
        Scrape::NotAllowed => Some(refusal(alloc, StatusCode::NotAllowed(GET), "NotAllowed")),
    }
}
