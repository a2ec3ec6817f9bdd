//! The requests of clients to the exchange, and the answers.
ghost use Rattle.std.specs.Prelude.{◌≡◌, ◌<◌, IfOk, Ok, length, string_bytes};
ghost use Rattle.control_requests.specs.Operation.{operation_at};
ghost use Rattle.control_requests.specs.declared.response.StatusCode.TheVariants as status;
ghost use Rattle.exchange_core.specs.Draining.{drained};
ghost use Rattle.service_api.specs.Accounts.{ShowsAccounts};
ghost use Rattle.service_api.specs.Answered.{Answers};
ghost use Rattle.service_api.specs.Calls.{ShowsCall, ShowsCalls};
ghost use Rattle.service_api.specs.Orders.{AnswersCall, CountsLegs, EndsDrain, NamesLeg, ShowsDrain, ShowsEndedLeg, ShowsHungUp};
ghost use Rattle.service_api.specs.Orders.{ShowsPlace, ShowsPlaced, WasCalled, fault_text};
ghost use Rattle.service_api.specs.Peers.{ShowsPeers};

use crate::accounts::add_up;
use crate::legs::{count_all, find_leg, serial_at_rest};
use crate::peer_rows::push_peers;
use crate::showing::{ShownLeg, push_all_calls};
use call_book::LegName;
use control_requests::{
    Operation, OperationError, PlaceFault, PlaceOrder, Request, Response, Rows, StatusCode,
    accounts_body, call_body, operation_of, place_of,
};
use exchange_core::{CallError, Exchange, NoGate, Pass, call_error_name};
use peer_lock::LedgerSet;
use peer_plan::{PeerId, peer_named};
use service_state::ServiceWatch;
use std::alloc::{AllocError, Global};
use std::sync::Wait;
use trace_writer::TraceLane;

// The answer to `GET /`: the list of commands.
const TABLE: &str =
    "{\"commands\":[\"GET /\",\"GET /peers\",\"GET /calls\",\"GET /calls/<number>\",\"GET /accounts\",\"POST /calls\",\
    \"DELETE /calls/<number>\",\"POST /drain\",\"DELETE /drain\",\"POST /stop\",\"POST /stop/graceful\"]}";

/// The exchange with a pass for clients, and the watch that its workers report to.
#[derive(Drop)]
pub struct ApiHandler<'x, J: LedgerSet> {
    pub exchange: &'x Exchange<NoGate, J>,
    pub pass: Pass<J>,
    pub watch: &'x ServiceWatch,
    /// The lane of the trace that notes the orders of clients, if a trace is written.
    pub lane: Option<TraceLane<'x>>,
}

impl<'x, J: LedgerSet> ApiHandler<'x, J> {
    /// Hangs up all legs that are still up ("Call Tear Down"). `now` is in milliseconds since the exchange was opened.
    /// Returns the number of legs, including those that are already ending.
    pub fn hang_up_all<R: Wait>(&mut self, rt: &R, now: u64) -> u32 {
        let mut legs: u32 = 0;
        for place in 0..self.exchange.plan().peer_count() {
            legs = legs.saturating_add(self.hang_up_peer(rt, PeerId::new(place), now));
        }
        legs
    }

    /// Lets the trace begin a new file if no leg is up. `now` is in milliseconds since the exchange was opened.
    pub fn look_for_rest<R: Wait>(&mut self, rt: &R, alloc: Global, now: u64) {
        if let Some(lane) = &mut self.lane {
            if lane.begin_look() {
                let rest = serial_at_rest(rt, self.exchange, &mut self.pass);
                lane.end_look(rt, alloc, now, self.exchange.plan(), rest);
            }
        }
    }

    /// Handles a request and returns its answer. A refusal is an answer too, with its name. `now` is in milliseconds since
    /// the exchange was opened.
    ///
    /// Returns `AllocError` if a request for memory was refused; the request may have taken effect by then.
    pub fn answer<R: Wait>(
        &mut self,
        rt: &R,
        alloc: Global,
        request: &Request<'_>,
        now: u64,
    ) -> Result<Response, AllocError>
        ensures { IfOk result (λ answer. Answers (operation_at request.now.method.now request.now.path.now)
            self.old.exchange.now request.now.body.now now answer self.old.pass self.new.pass) }
    {
        let operation = operation_of(request.method, request.path);
        self.answer_to(rt, alloc, operation, request.body, now)
    }

    // Answers a request to an operation, with this body.
    fn answer_to<R: Wait>(
        &mut self,
        rt: &R,
        alloc: Global,
        operation: Result<Operation, OperationError>,
        body: &[u8],
        now: u64,
    ) -> Result<Response, AllocError>
        ensures { IfOk result (λ answer. Answers operation self.old.exchange.now body.now now answer self.old.pass
            self.new.pass) }
    {
        match operation {
            Ok(Operation::Table) => answered(alloc, StatusCode::Ok, TABLE),
            Ok(Operation::Peers) => self.peers(rt, alloc, now),
            Ok(Operation::Calls) => self.calls(rt, alloc, now),
            Ok(Operation::Call(number)) => self.call(rt, alloc, number, now),
            Ok(Operation::Accounts) => self.accounts(rt, alloc),
            Ok(Operation::Place) => self.place(rt, alloc, body, now),
            Ok(Operation::HangUp(number)) => self.end_leg(rt, alloc, number, now),
            Ok(Operation::Stop) => {
                self.watch.lifecycle().stop();
                answered(alloc, StatusCode::Accepted, "{}")
            }
            Ok(Operation::StopGracefully) => {
                self.watch.lifecycle().stop_gracefully();
                self.begin_drain(rt, alloc, now)
            }
            Ok(Operation::Drain) => {
                self.watch.lifecycle().drain(true);
                self.begin_drain(rt, alloc, now)
            }
            Ok(Operation::EndDrain) => self.end_drain(rt, alloc, now),
            Err(OperationError::NotFound) => Response::error(
                alloc,
                StatusCode::NotFound,
                "NotFound",
            ),
            Err(OperationError::NotAllowed(methods)) => {
                Response::error(alloc, StatusCode::NotAllowed(methods), "NotAllowed")
            }
        }
    }

    // Sets whether the peers drain: all of them, or none.
    fn set_draining<R: Wait>(&mut self, rt: &R, drains: bool, now: u64)
        ensures drained { self.new.pass ≡ drained (length self.old.exchange.now.peers) drains self.old.pass }
        ensures exchange { self.new.exchange ≡ self.old.exchange }
        ensures watch { self.new.watch ≡ self.old.watch }
    {
        if let Some(lane) = &mut self.lane {
            lane.begin_drain(rt, now, drains);
        }
        self.exchange.set_all_draining(rt, &mut self.pass, drains);
        if let Some(lane) = &mut self.lane {
            lane.end_order(rt);
        }
    }

    // Returns the number of legs.
    pub(crate) fn leg_count<R: Wait>(&mut self, rt: &R) -> u32
        ensures { CountsLegs (length self.old.exchange.now.peers) result self.old.pass self.new.pass }
    {
        count_all(rt, self.exchange, &mut self.pass)
    }

    // Has all peers drain, and answers with the number of legs that are left.
    fn begin_drain<R: Wait>(
        &mut self,
        rt: &R,
        alloc: Global,
        now: u64,
    ) -> Result<Response, AllocError>
        ensures { IfOk result (λ answer. ShowsDrain (length self.old.exchange.now.peers) answer self.old.pass self.new.pass) }
    {
        self.set_draining(rt, true, now);
        let legs = self.leg_count(rt);
        let body = format!(in alloc; "{{\"legs\":{}}}", legs)?;
        Ok(Response {
            status: StatusCode::Accepted,
            body,
        })
    }

    // `DELETE /drain`
    fn end_drain<R: Wait>(
        &mut self,
        rt: &R,
        alloc: Global,
        now: u64,
    ) -> Result<Response, AllocError>
        ensures { IfOk result (λ answer. EndsDrain (length self.old.exchange.now.peers) answer self.old.pass self.new.pass) }
    {
        if !self.watch.lifecycle().drain(false) {
            return Response::error(alloc, StatusCode::Conflict, "Draining");
        }
        self.set_draining(rt, false, now);
        answered(alloc, StatusCode::Ok, "{}")
    }

    // `GET /peers`
    fn peers<R: Wait>(&mut self, rt: &R, alloc: Global, now: u64) -> Result<Response, AllocError>
        ensures { IfOk result (λ answer. ShowsPeers self.old.exchange.now answer self.old.pass self.new.pass) }
    {
        let mut rows = Rows::new(alloc);
        push_peers(
            rt,
            alloc,
            self.exchange,
            &mut self.pass,
            self.watch,
            &mut rows,
            now,
        )?;
        shown(rows.into_peers(alloc))
    }

    // `GET /calls`
    fn calls<R: Wait>(&mut self, rt: &R, alloc: Global, now: u64) -> Result<Response, AllocError>
        ensures { IfOk result (λ answer. ShowsCalls self.old.exchange.now now answer self.old.pass self.new.pass) }
    {
        let mut rows = Rows::new(alloc);
        push_all_calls(rt, alloc, self.exchange, &mut self.pass, &mut rows, now)?;
        shown(rows.into_calls(alloc))
    }

    // `GET /calls/<number>`
    fn call<R: Wait>(
        &mut self,
        rt: &R,
        alloc: Global,
        number: u16,
        now: u64,
    ) -> Result<Response, AllocError>
        ensures { IfOk result (λ answer. ShowsCall self.old.exchange.now number now answer self.old.pass self.new.pass) }
    {
        let exchange = self.exchange;
        let Some(peer) = exchange.plan().owner_of(number) else {
            return Response::error(alloc, StatusCode::NotFound, "NoLeg");
        };
        match ShownLeg::at(rt, alloc, exchange, &mut self.pass, peer, number)? {
            Some(leg) => shown(call_body(alloc, leg.row(exchange.plan(), peer, now))),
            None => Response::error(alloc, StatusCode::NotFound, "NoLeg"),
        }
    }

    // `GET /accounts`
    fn accounts<R: Wait>(&mut self, rt: &R, alloc: Global) -> Result<Response, AllocError>
        ensures { IfOk result (λ answer. ShowsAccounts (length self.old.exchange.now.peers) answer self.old.pass self.new.pass) }
    {
        let row = add_up(rt, self.exchange, &mut self.pass);
        shown(accounts_body(alloc, row))
    }

    // `DELETE /calls/<number>`
    fn end_leg<R: Wait>(
        &mut self,
        rt: &R,
        alloc: Global,
        number: u16,
        now: u64,
    ) -> Result<Response, AllocError>
        ensures { IfOk result (λ answer. ShowsEndedLeg self.old.exchange.now number answer self.old.pass self.new.pass) }
    {
        let found = find_leg(rt, self.exchange, &mut self.pass, number);
        match found {
            Some((_, name)) => self.drop_call(rt, alloc, name, now),
            None => Response::error(alloc, StatusCode::NotFound, "NoLeg"),
        }
    }

    // `DELETE /calls/<number>`, of a leg that was found
    fn drop_call<R: Wait>(
        &mut self,
        rt: &R,
        alloc: Global,
        name: LegName,
        now: u64,
    ) -> Result<Response, AllocError>
        ensures { IfOk result (λ answer. ShowsHungUp name answer self.old.pass self.new.pass) }
    {
        let hung_up = self.hang_up(rt, name, now);
        self.watch.wake_all();
        match hung_up {
            Ok(()) => named(alloc, StatusCode::Ok, name),
            Err(why) => Response::error(alloc, StatusCode::Conflict, why),
        }
    }

    // `POST /calls`
    fn place<R: Wait>(
        &mut self,
        rt: &R,
        alloc: Global,
        body: &[u8],
        now: u64,
    ) -> Result<Response, AllocError>
        ensures { IfOk result (λ answer. ShowsPlace self.old.exchange.now body.now answer self.old.pass self.new.pass) }
    {
        match place_of(alloc, body) {
            Ok(order) => self.place_call(rt, alloc, &order, now),
            Err(PlaceFault::Memory) => Err(AllocError),
            Err(PlaceFault::NotJson) => Response::error(alloc, StatusCode::BadRequest, "NotJson"),
            Err(fault) => Response::error(alloc, StatusCode::Unprocessable, fault_name(fault)),
        }
    }

    // Places a call, unless the service drains.
    fn place_call<R: Wait>(
        &mut self,
        rt: &R,
        alloc: Global,
        order: &PlaceOrder,
        now: u64,
    ) -> Result<Response, AllocError>
        ensures { IfOk result (λ answer. ShowsPlaced self.old.exchange.now (string_bytes order.now.peer) answer self.old.pass
            self.new.pass) }
    {
        let lifecycle = self.watch.lifecycle();
        if lifecycle.drains() || lifecycle.is_stopping() || lifecycle.has_ended() {
            return Response::error(alloc, StatusCode::Unavailable, "Draining");
        }
        let Some(peer) = peer_named(self.exchange.plan(), order.peer.as_bytes()) else {
            return Response::error(alloc, StatusCode::Unprocessable, "NoPeer");
        };
        let called = self.call_peer(rt, peer, order.number.as_bytes(), now);
        self.watch.wake_all();
        call_answer(alloc, called)
    }

    // Places a call to a peer of the plan.
    fn call_peer<R: Wait>(
        &mut self,
        rt: &R,
        peer: PeerId,
        number: &[u8],
        now: u64,
    ) -> Result<LegName, CallError>
        requires { peer < length self.old.exchange.now.peers }
        ensures { WasCalled peer result self.old.pass self.new.pass }
    {
        if let Some(lane) = &mut self.lane {
            lane.begin_call(rt, now, peer, number);
        }
        let called = self.exchange.call(rt, &mut self.pass, peer, number, now);
        if let Some(lane) = &mut self.lane {
            lane.end_order(rt);
        }
        called
    }
}

// Returns the answer by the result of a call.
fn call_answer(alloc: Global, called: Result<LegName, CallError>) -> Result<Response, AllocError>
    ensures { IfOk result (AnswersCall called) }
{
    match called {
        Ok(name) => named(alloc, StatusCode::Created, name),
        Err(CallError::BadNumber) => {
            Response::error(alloc, StatusCode::Unprocessable, "BadNumber")
        }
        Err(error) => Response::error(alloc, StatusCode::Conflict, call_error_name(error)),
    }
}

// Returns the answer with this body, if there was memory for it.
fn shown(body: Result<String, AllocError>) -> Result<Response, AllocError>
    ensures { IfOk result (λ answer. (answer.status ≡ status.Ok) × (body ≡ Ok answer.body)) }
{
    match body {
        Ok(body) => Ok(Response {
            status: StatusCode::Ok,
            body,
        }),
        Err(error) => Err(error),
    }
}

// Returns an answer with this body.
fn answered(alloc: Global, status: StatusCode, body: &str) -> Result<Response, AllocError>
    ensures { IfOk result (λ answer. (answer.status ≡ status) × (string_bytes answer.body ≡ body.now)) }
{
    Ok(Response {
        status,
        body: String::from_str(alloc, body)?,
    })
}

// Returns an answer that names a leg.
fn named(alloc: Global, status: StatusCode, name: LegName) -> Result<Response, AllocError>
    ensures { IfOk result (NamesLeg status name) }
{
    let body = format!(in alloc; "{{\"number\":{},\"serial\":{}}}", name.number, name.serial)?;
    Ok(Response { status, body })
}

// Returns the name of the reason why a body places no call.
fn fault_name(fault: PlaceFault) -> &'static str
    ensures { result.now ≡ fault_text fault }
{
    match fault {
        PlaceFault::NotJson => "NotJson",
        PlaceFault::NoPeer => "NoPeer",
        PlaceFault::NoNumber => "NoNumber",
        PlaceFault::NumberTooLong => "NumberTooLong",
        PlaceFault::Memory => "Memory",
    }
}
