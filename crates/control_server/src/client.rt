//! One client: its octets come in until its request is complete, and then its answer is sent.
ghost use Rattle.std.specs.Prelude.{◌≡◌, ◌≢◌, ◌⊎◌, ◌+◌, ◌<◌, [], IfOk, IsErr, IsFalse, option_map, vec_len};
ghost use Rattle.control_requests.specs.Requests.{Reads};
ghost use Rattle.control_requests.specs.Response.{refusal_text};
ghost use Rattle.control_server.specs.Clients.{WasHeard, WasServed, WasSpoken, has_ended, is_answered, kept_of};
ghost use Rattle.control_server.specs.Clients.{IsAnsweredAtFault, fault_text};
ghost use Rattle.control_requests.specs.declared.request.Reading.TheVariants.{Part};
ghost use Rattle.control_server.specs.declared.client.ClientStage.TheVariants.{Asking, Answered, Draining, Ended};

use crate::doors::{Door, Stream};
use control_requests::{Reading, Response, StatusCode, read_request};
use std::alloc::{AllocError, Global};
use std::io::ErrorKind;

// The number of octets read at once.
const PIECE: usize = 4096;

// The number of reads, and of writes, that a client gets in one round.
const ROUNDS: u32 = 64;

// The time after which a client is closed in any case, in milliseconds.
const CLIENT_MS: u64 = 5000;

/// The progress of a client.
#[derive(Clone, Copy, Debug, PartialEq, Eq)]
pub enum ClientStage {
    /// Its request isn't complete.
    Asking,
    /// Its answer isn't sent.
    Answered,
    /// Its answer is sent. Further input is dropped, because a close with unread input would reset the connection and lose
    /// the answer.
    Draining,
    /// It can be closed.
    Ended,
}

/// A client with its input and its output. Moments are in milliseconds.
#[derive(Drop)]
pub struct Client {
    stream: Stream,
    pub door: Door,
    /// The moment of its connection.
    pub since: u64,
    /// The moment at which an octet of it was last read or written.
    pub active: u64,
    pub stage: ClientStage,
    input: Vec<u8>,
    output: Vec<u8>,
    sent: usize,
}

impl Client {
    /// Returns a client that hasn't sent anything.
    pub fn new(alloc: Global, stream: Stream, door: Door, since: u64) -> Client
        ensures stream { result.stream ≡ stream }
        ensures door { result.door ≡ door }
        ensures since { result.since ≡ since }
        ensures active { result.active ≡ since }
        ensures stage { result.stage ≡ Asking }
        ensures input { result.input.items ≡ [] }
        ensures output { result.output.items ≡ [] }
        ensures sent { result.sent ≡ 0 }
    {
        Client {
            stream,
            door,
            since,
            active: since,
            stage: ClientStage::Asking,
            input: Vec::new(alloc),
            output: Vec::new(alloc),
            sent: 0,
        }
    }

    // Ends the client after an error of the system, unless the call can be tried again. Returns whether to try at once.
    fn fail(&mut self, kind: ErrorKind) -> bool
        ensures { (self.new ≡ self.old) ⊎ (self.new ≡ record self.old { stage = Ended }) }
    {
        if kind != ErrorKind::WouldBlock && kind != ErrorKind::Interrupted {
            self.stage = ClientStage::Ended;
        }
        kind == ErrorKind::Interrupted
    }

    // Reads once. Returns false if nothing waits or the input has ended.
    fn take_some(&mut self) -> Result<bool, AllocError>
        ensures heard { WasHeard self.old self.new }
        ensures active { self.new.active ≡ self.old.active }
        ensures later { self.old.stage ≢ Asking → self.new.input ≡ self.old.input }
        ensures bounded { vec_len self.new.input < vec_len self.old.input + 4097 }
    {
        let mut piece = [0u8; PIECE];
        match self.stream.read_some(&mut piece) {
            Ok(0) => {
                self.stage = ClientStage::Ended;
                Ok(false)
            }
            Ok(count) => {
                if self.stage == ClientStage::Asking {
                    self.input.extend_from_slice(&piece[..count])?;
                }
                Ok(true)
            }
            Err(error) => Ok(self.fail(error.kind())),
        }
    }

    // Writes once. Returns false if the system takes no more now.
    fn give_some(&mut self) -> bool
        requires { self.old.stage ≡ Answered }
        ensures spoken { WasSpoken self.old self.new }
        ensures active { self.new.active ≡ self.old.active }
        ensures output { self.new.output ≡ self.old.output }
    {
        let Some(rest) = self.output.get(self.sent..) else {
            return false;
        };
        if rest.is_empty() {
            self.stage = match self.stream.end_output() {
                Ok(()) => ClientStage::Draining,
                Err(_) => ClientStage::Ended,
            };
            return false;
        }
        match self.stream.write_some(rest) {
            Ok(count) => {
                self.sent = self.sent.saturating_add(count);
                count > 0
            }
            Err(error) => {
                let kind = error.kind();
                self.fail(kind)
            }
        }
    }

    // Reads the available input at `now`, in at most 64 reads, until the request is complete. So at most 16,383 octets are
    // kept of it.
    fn take(&mut self, now: u64) -> Result<(), AllocError>
        ensures heard { WasHeard self.old self.new }
        ensures later { self.old.stage ≢ Asking → self.new.input ≡ self.old.input }
        ensures answered { self.old.stage ≡ Answered → self.new ≡ self.old }
        ensures active { (self.new.active ≡ self.old.active) ⊎ (self.new.active ≡ now) }
        ensures bounded { vec_len self.old.input < 16384 → vec_len self.new.input < 16384 }
    {
        for _ in 0..ROUNDS {
            if self.stage == ClientStage::Answered || self.is_whole() || !self.take_some()? {
                break;
            }
            self.active = now;
        }
        Ok(())
    }

    /// Reads the available input at `now`, in at most 64 reads. Input that isn't a valid request is answered with the fault.
    /// Without memory the client ends.
    pub fn hear(&mut self, alloc: Global, now: u64)
        ensures served { WasServed self.old self.new }
        ensures fault { IsAnsweredAtFault self.old self.new }
        ensures bounded { vec_len self.old.input < 16384 → vec_len self.new.input < 16384 }
    {
        if self.take(now).is_err() {
            self.stage = ClientStage::Ended;
        }
        if self.stage == ClientStage::Asking {
            if let Some((status, why)) = fault_of(&self.reading()) {
                self.answer(refusal(alloc, status, why));
            }
        }
    }

    // Returns whether its request is complete or can't become so.
    fn is_whole(&self) -> bool
        ensures { self.now.stage ≡ Asking → IsFalse result → vec_len self.now.input < 12288 }
    {
        self.stage == ClientStage::Asking && self.reading() != Reading::Part
    }

    /// Reads its input so far.
    pub fn reading(&self) -> Reading<'_>
        ensures reads { Reads self.now.input.items result }
        ensures bounded { result ≡ Part → vec_len self.now.input < 12288 }
    {
        read_request(&self.input)
    }

    /// Sets its answer. Without memory for the answer the client ends.
    pub fn answer(&mut self, octets: Result<Vec<u8>, AllocError>)
        ensures kept { IfOk octets (λ kept. self.new ≡ record self.old { output = kept; stage = Answered }) }
        ensures none { IsErr octets → self.new ≡ record self.old { stage = Ended } }
    {
        match octets {
            Ok(octets) => {
                self.output = octets;
                self.stage = ClientStage::Answered;
            }
            Err(_) => self.stage = ClientStage::Ended,
        }
    }

    /// Returns the number of octets of its answer that are kept.
    pub fn kept(&self) -> usize
        ensures { result ≡ kept_of self.now }
    {
        if self.stage == ClientStage::Answered {
            self.output.len()
        } else {
            0
        }
    }

    // Sends what the system takes at `now`, in at most 64 writes. A sent answer isn't kept.
    fn give(&mut self, now: u64)
        ensures served { WasServed self.old self.new }
        ensures spoken { self.old.stage ≡ Answered → WasSpoken self.old self.new }
        ensures output { self.new.stage ≢ Draining → self.new.output ≡ self.old.output }
        ensures dropped { self.new.stage ≡ Draining → self.new.output.items ≡ [] }
        ensures active { (self.new.active ≡ self.old.active) ⊎ (self.new.active ≡ now) }
        ensures others { self.old.stage ≢ Answered → self.old.stage ≢ Draining → self.new ≡ self.old }
    {
        for _ in 0..ROUNDS {
            if self.stage != ClientStage::Answered || !self.give_some() {
                break;
            }
            self.active = now;
        }
        if self.stage == ClientStage::Draining {
            self.output.clear();
            self.output.shrink_to_fit();
        }
    }

    /// Sends what the system takes at `now`, in at most 64 writes. A client that has been connected for five seconds ends.
    pub fn speak(&mut self, now: u64)
        ensures { WasServed self.old self.new }
    {
        self.give(now);
        if now.saturating_sub(self.since) >= CLIENT_MS {
            self.stage = ClientStage::Ended;
        }
    }

    /// Returns whether its answer is still to be sent.
    pub fn is_answered(&self) -> bool
        ensures { result ≡ is_answered self.now }
    {
        match self.stage {
            ClientStage::Answered => true,
            ClientStage::Asking | ClientStage::Draining | ClientStage::Ended => false,
        }
    }

    /// Returns whether it can be closed.
    pub fn has_ended(&self) -> bool
        ensures { result ≡ has_ended self.now }
    {
        match self.stage {
            ClientStage::Ended => true,
            ClientStage::Asking | ClientStage::Answered | ClientStage::Draining => false,
        }
    }
}

/// Returns the octets of a response that names a fault: `{"error": why}`.
///
/// `AllocError`: a request for memory was refused.
pub fn refusal(alloc: Global, status: StatusCode, why: &str) -> Result<Vec<u8>, AllocError>
    ensures { IfOk result (λ octets. octets.items ≡ refusal_text status why.now) }
{
    Response::error(alloc, status, why)?.octets(alloc)
}

// Returns the fault of a client's input.
fn fault_of(reading: &Reading<'_>) -> Option<(StatusCode, &'static str)>
    ensures { option_map (λ fault. refusal_text fault.0 fault.1.now) result ≡ fault_text reading.now }
{
    match reading {
        Reading::HeadTooLarge => Some((StatusCode::HeadTooLarge, "HeadTooLarge")),
        Reading::BodyTooLarge => Some((StatusCode::TooLarge, "BodyTooLarge")),
        Reading::Malformed => Some((StatusCode::BadRequest, "Malformed")),
        _ => None,
    }
}
