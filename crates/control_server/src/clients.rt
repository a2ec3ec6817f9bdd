//! The clients of a service: they connect to a listener, send a request, and are answered, one after another.
ghost use Rattle.std.specs.Prelude.{◌≡◌, ◌+◌, ◌-◌, ◌^◌, ◌<◌, ◌≤◌, ◌↔◌, []};
ghost use Rattle.std.specs.Prelude.{IfNone, IfOk, IfSome, IsErr, IsFalse, IsTrue, filter, min, not, option_map, slice_get, sum_by, true, vec_len};
ghost use Rattle.std.specs.List.{list_any};
ghost use Rattle.control_requests.specs.Requests.{Reads};
ghost use Rattle.control_requests.specs.declared.request.Reading.TheVariants.{Whole, Part};
ghost use Rattle.control_server.specs.Clients.{WasHeardOut, WasServed, At, SparesOthers, has_ended, is_answered, kept_of};
ghost use Rattle.control_server.specs.Clients.{AsksAt, IsNoRequest};
ghost use Rattle.control_server.specs.Clients as spec;
ghost use Rattle.control_server.specs.declared.client.ClientStage.TheVariants.{Asking, Answered, Draining, Ended};

use crate::client::{Client, ClientStage, refusal};
use crate::doors::{Door, Doors, NotBound, Stream};
use control_requests::{Reading, Request, StatusCode, Urgency, urgency_of};
use mio::unix::SourceFd;
use mio::{Events, Interest, Poll, Token};
use std::alloc::{AllocError, Global};
use std::fs::Files;
use std::io;
use std::io::ErrorKind;
use std::net::{Net, SocketAddr};
use std::random::RandomSource;
use std::time::Duration;

/// The number of clients of each listener that are served at once.
pub const CLIENTS: usize = 32;

// The time without a write, in milliseconds, after which an answered client gives way to another.
const STUCK_MS: u64 = 1000;

// The limit on the octets of answers that are kept for all clients together.
const KEPT: usize = 16_777_216;

// The poll's token for standard input.
const INPUT: Token = Token(2);

/// The listeners and their clients. Moments are in milliseconds.
///
/// `bind` and `await_end_of_input` choose the events to wait for. Then come rounds: `wait`, `takes_end_of_input`, `admit`;
/// for each place below `count` `hear`, then `answer` if `request` returns a request, in the order of `urgency`, and
/// `speak`; at last `close_ended`.
pub struct Clients {
    alloc: Global,
    poll: Poll,
    events: Events,
    doors: Doors,
    clients: Vec<Client>,
    // Whether more connections may wait than were accepted.
    may_have_more: bool,
    // Whether the end of standard input is watched for, and hasn't come yet.
    awaits_end: bool,
}

// Written out, so that an owner proves one call at its drop, not the drop of each field.
impl Drop for Clients {
    fn drop(self) {
        let Clients {
            alloc: _,
            poll: _,
            events: _,
            doors: _,
            clients: _,
            may_have_more: _,
            awaits_end: _,
        } = self;
    }
}

impl Clients {
    /// Returns a value without listeners and clients.
    ///
    /// Returns the system's error if it gives no poll, or no memory.
    pub fn new<R: Net>(rt: &R, alloc: Global) -> io::Result<Clients>
        ensures { IfOk result (λ clients. clients.clients.items ≡ []) }
    {
        let events = Events::with_capacity(alloc, 64)?;
        let clients = Vec::with_capacity(alloc, 2 * CLIENTS)?;
        let poll = Poll::new(rt)?;
        Ok(Clients {
            alloc,
            poll,
            events,
            doors: Doors::none(),
            clients,
            may_have_more: false,
            awaits_end: false,
        })
    }

    /// Binds the control socket at its path, to which only its owner may connect, and the address of the metrics. Each is
    /// optional. `NotBound` has the name of the refusal: `Control`, `Metrics` or `Memory`.
    pub fn bind<R: Files + Net + RandomSource>(
        &mut self,
        rt: &R,
        control: Option<&str>,
        metrics: Option<SocketAddr>,
    ) -> Result<(), NotBound>
        ensures { self.new.clients ≡ self.old.clients }
    {
        self.doors.bind_control(rt, self.alloc, control)?;
        self.doors.bind_metrics(rt, metrics)?;
        match self.doors.register(self.poll.registry()) {
            Ok(()) => Ok(()),
            Err(error) => Err(NotBound::of(&error, "Control")),
        }
    }

    /// Removes the file of the control socket at its path, if it is bound and still there.
    pub fn unbind<R: Files>(&mut self, rt: &R, path: &str)
        ensures { self.new.clients ≡ self.old.clients }
    {
        self.doors.unbind_control(rt, path);
    }

    /// Watches standard input for its end; fails if it is closed or a file.
    pub fn await_end_of_input(&mut self) -> io::Result<()>
        ensures { self.new.clients ≡ self.old.clients }
    {
        let mut input = SourceFd(&0);
        self.poll
            .registry()
            .register(&mut input, INPUT, Interest::READABLE)?;
        self.awaits_end = true;
        Ok(())
    }

    // Returns whether standard input has ended.
    fn has_input_ended(&self) -> bool {
        for event in self.events.iter() {
            if event.token() == INPUT && event.is_read_closed() {
                return true;
            }
        }
        false
    }

    /// Returns whether the last `wait` reported the end of standard input. It returns true only once.
    pub fn takes_end_of_input(&mut self) -> bool
        ensures clients { self.new.clients ≡ self.old.clients }
        ensures once { IsTrue result → IsTrue self.old.awaits_end }
        ensures watches { IsTrue self.new.awaits_end ↔ (IsTrue self.old.awaits_end × IsFalse result) }
    {
        if self.awaits_end && self.has_input_ended() {
            self.awaits_end = false;
            return true;
        }
        false
    }

    /// Waits for a client for at most `most_ms` milliseconds, and not at all if connections wait already.
    pub fn wait(&mut self, most_ms: u64)
        ensures { self.new.clients ≡ self.old.clients }
    {
        let ms = if self.may_have_more { 0 } else { most_ms };
        let _ = self
            .poll
            .poll(&mut self.events, Some(Duration::from_millis(ms)));
    }

    /// Accepts the connections that wait at `now`, at most 32 of each listener. Where 32 clients of a listener have places,
    /// the one that has been idle for longest is closed for another: one whose request isn't complete or whose answer is
    /// sent, or that took none of its answer for a second. If there is none, the new connection is closed.
    pub fn admit(&mut self, now: u64)
        ensures { SparesOthers now self.old.clients.items self.new.clients.items }
    {
        let control = self.admit_all(Door::Control, now);
        let metrics = self.admit_all(Door::Metrics, now);
        self.may_have_more = control || metrics;
    }

    /// Accepts the connections that wait at the control socket, as `admit` does. Other clients of it get new places.
    pub fn admit_control(&mut self, now: u64)
        ensures { SparesOthers now self.old.clients.items self.new.clients.items }
    {
        let control = self.admit_all(Door::Control, now);
        self.may_have_more = self.may_have_more || control;
    }

    // Accepts the connections that wait. Returns whether more may wait.
    fn admit_all(&mut self, door: Door, now: u64) -> bool
        ensures { SparesOthers now self.old.clients.items self.new.clients.items }
    {
        for _ in 0..CLIENTS {
            if !self.admit_one(door, now) {
                return false;
            }
        }
        true
    }

    // Accepts a connection that waits. Returns false if none does.
    fn admit_one(&mut self, door: Door, now: u64) -> bool
        ensures { SparesOthers now self.old.clients.items self.new.clients.items }
    {
        match self.doors.accept(door) {
            Ok(stream) => {
                self.seat(door, stream, now);
                true
            }
            Err(error) => error.kind() == ErrorKind::Interrupted,
        }
    }

    // Returns the number of clients of this listener.
    fn count_of(&self, door: Door) -> usize {
        let mut count: usize = 0;
        for client in self.clients.iter() {
            if client.door == door {
                count = count.wrapping_add(1);
            }
        }
        count
    }

    // Returns the place of the client of this listener that has been idle for longest, among those that give way to
    // another.
    fn idlest(&self, door: Door, now: u64) -> Option<usize>
        ensures { IfSome result (λ place. IfSome (slice_get self.now.clients.items place) (λ client.
            spec.gives_way now client ≡ true)) }
    {
        let mut found: Option<(usize, u64)> = None;
        for (place, client) in self.clients.iter().enumerate() {
            let is_later = match found {
                Some((_, active)) => client.active >= active,
                None => false,
            };
            if client.door == door && gives_way(client, now) && !is_later {
                found = Some((place, client.active));
            }
        }
        match found {
            Some((place, _)) => Some(place),
            None => None,
        }
    }

    // Frees a place for a client of this listener if all are taken and one gives way. Returns whether a place is free.
    fn make_place(&mut self, door: Door, now: u64) -> bool
        ensures { SparesOthers now self.old.clients.items self.new.clients.items }
    {
        if self.count_of(door) < CLIENTS {
            return true;
        }
        match self.idlest(door, now) {
            Some(place) if place < self.clients.len() => {
                let _closed = self.clients.swap_remove(place);
                true
            }
            _ => false,
        }
    }

    // Gives a connection a place, or closes it if none is free.
    fn seat(&mut self, door: Door, stream: Stream, now: u64)
        ensures { SparesOthers now self.old.clients.items self.new.clients.items }
    {
        let mut stream = stream;
        if self.make_place(door, now) && stream.register(self.poll.registry()).is_ok() {
            let client = Client::new(self.alloc, stream, door, now);
            let _ = self.clients.push(client);
        }
    }

    /// Returns the number of clients. Each keeps its place below that until `admit`, `admit_control` or `close_ended`.
    pub fn count(&self) -> usize
        ensures { result ≡ vec_len self.now.clients }
    {
        self.clients.len()
    }

    /// Returns the listener of the client at a place.
    pub fn door(&self, place: usize) -> Option<Door>
        ensures { result ≡ option_map (λ client. client.door) (slice_get self.now.clients.items place) }
    {
        match self.clients.get(place) {
            Some(client) => Some(client.door),
            None => None,
        }
    }

    /// Reads the available input of the client at a place. Input that isn't a valid request is answered here with the
    /// fault.
    pub fn hear(&mut self, place: usize, now: u64)
        ensures { At WasHeardOut place self.old.clients.items self.new.clients.items }
    {
        let alloc = self.alloc;
        if let Some(client) = self.clients.get_mut(place) {
            client.hear(alloc, now);
        }
    }

    /// Returns the request of the client at a place, and its listener, if the request is complete and not answered.
    pub fn request(&self, place: usize) -> Option<(Door, Request<'_>)>
        ensures asking { IfSome result (λ found.
            IfSome (slice_get self.now.clients.items place) (λ client. client.stage ≡ Asking)) }
        ensures door { IfSome result (λ found.
            IfSome (slice_get self.now.clients.items place) (λ client. client.door ≡ found.0)) }
        ensures whole { IfSome result (λ found.
            IfSome (slice_get self.now.clients.items place) (λ client. Reads client.input.items (Whole found.1))) }
        ensures there { IfSome result (λ found. place < vec_len self.now.clients) }
        ensures none { IfNone result (IfSome (slice_get self.now.clients.items place) (λ client.
            client.stage ≡ Asking → IsNoRequest client.input.items)) }
    {
        let client = self.clients.get(place)?;
        if client.stage != ClientStage::Asking {
            return None;
        }
        match client.reading() {
            Reading::Whole(request) => Some((client.door, request)),
            _ => None,
        }
    }

    /// Returns how soon the client at a place is answered, if its request is complete and not answered.
    pub fn urgency(&self, place: usize) -> Option<Urgency>
        ensures asks { IfSome result (λ urgency.
            IfSome (slice_get self.now.clients.items place) (λ client. AsksAt urgency client)) }
        ensures there { IfSome result (λ urgency. place < vec_len self.now.clients) }
        ensures none { IfNone result (IfSome (slice_get self.now.clients.items place) (λ client.
            client.stage ≡ Asking → IsNoRequest client.input.items)) }
    {
        let (door, request) = self.request(place)?;
        match door {
            Door::Control => Some(urgency_of(request.method, request.path)),
            Door::Metrics => Some(Urgency::Metrics),
        }
    }

    // Returns the octets of answers that are kept.
    fn kept(&self) -> usize
        ensures { result ≡ min (sum_by kept_of self.now.clients.items) (2 ^ 64 - 1) }
    {
        let mut kept: usize = 0;
        for client in self.clients.iter() {
            kept = kept.saturating_add(client.kept());
        }
        kept
    }

    // Returns the answer, or `Busy` if it is too large together with those that are kept.
    fn within_limit(&self, octets: Result<Vec<u8>, AllocError>) -> Result<Vec<u8>, AllocError>
        ensures given { IfOk octets (λ given.
            sum_by kept_of self.now.clients.items + vec_len given ≤ 16777216 → result ≡ octets) }
        ensures none { IsErr octets → result ≡ octets }
    {
        match octets {
            Ok(octets) if self.kept().saturating_add(octets.len()) > KEPT => {
                refusal(self.alloc, StatusCode::Unavailable, "Busy")
            }
            octets => octets,
        }
    }

    /// Sets the answer of the client at a place. It is `Busy` (503) if more than 16 MiB of answers would be kept. A client
    /// is closed without an answer if there was no memory for it.
    pub fn answer(&mut self, place: usize, octets: Result<Vec<u8>, AllocError>)
        ensures { At (λ client after.
            IfOk octets (λ given. sum_by kept_of self.old.clients.items + vec_len given ≤ 16777216
            → after ≡ record client { output = given; stage = Answered })
            × (IsErr octets → after ≡ record client { stage = Ended }))
            place self.old.clients.items self.new.clients.items }
    {
        let octets = self.within_limit(octets);
        if let Some(client) = self.clients.get_mut(place) {
            client.answer(octets);
        }
    }

    /// Sends what the system takes at `now` to the client at a place. A client that has been connected for five seconds
    /// ends.
    pub fn speak(&mut self, place: usize, now: u64)
        ensures { At WasServed place self.old.clients.items self.new.clients.items }
    {
        if let Some(client) = self.clients.get_mut(place) {
            client.speak(now);
        }
    }

    /// Closes the clients that have ended. The others get new places.
    pub fn close_ended(&mut self)
        ensures { self.new.clients.items ≡ filter (λ client. not (has_ended client)) self.old.clients.items }
    {
        self.clients.retain(|client| !client.has_ended());
    }

    /// Returns whether an answer is still to be sent.
    pub fn is_answering(&self) -> bool
        ensures { result ≡ list_any is_answered self.now.clients.items }
    {
        self.clients.iter().any(|client| client.is_answered())
    }
}

// Returns whether a client gives way to another: its request isn't complete, its answer is sent, or it takes none of the
// answer.
fn gives_way(client: &Client, now: u64) -> bool
    ensures { result ≡ spec.gives_way now client.now }
{
    match client.stage {
        ClientStage::Answered => now.saturating_sub(client.active) >= STUCK_MS,
        ClientStage::Asking | ClientStage::Draining | ClientStage::Ended => true,
    }
}
