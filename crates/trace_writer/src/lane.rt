//! The notes that a thread of a service takes of its calls of the exchange.
use crate::calls::OpenCall;
use crate::free_numbers::orders_of;
use crate::mark::{Batch, Input, Mark};
use crate::trace::Trace;
use call_auth::Challenge;
use peer_plan::{Endpoint, PeerId, Plan};
use std::alloc::{AllocError, Global};
use std::sync::Wait;

// The octets of the longest challenge and of the longest received datagram together.
const LONGEST: usize = 32 + 2049;

/// A thread's own end of the trace.
///
/// A worker reports the start of a turn and its end, each datagram before the exchange gets it, and the ticks of its peers.
/// It also reports a datagram that is turned away or refused, a leg that is taken out, and each datagram that it sends. A call
/// of the exchange is open until the next datagram, the ticks, the first sent datagram, or the end of the turn. A thread that gives
/// orders reports the start and the end of each.
///
/// Notes stay with the thread until the end of its turn or order. So it notes without a lock, and copies the octets of a
/// datagram once. Then it hands the notes over.
pub struct TraceLane<'t> {
    trace: &'t Trace,
    thread: usize,
    now: u64,
    challenge: Challenge,
    // The notes that aren't handed over yet. If a call is open, the last mark is its mark.
    noted: Batch,
    open: Option<(OpenCall, Input)>,
    // The number of calls that weren't noted since the last one that was.
    lost: u64,
    // The events of this turn.
    has_received: bool,
    has_retired: bool,
    peers: u32,
    untaken: u32,
    // The number of calls that had begun when a check for legs began.
    look: Option<u64>,
}

// Written out, so that an owner proves one call at its drop, not the drop of each field.
impl<'t> Drop for TraceLane<'t> {
    fn drop(self) {
        let TraceLane {
            trace: _,
            thread: _,
            now: _,
            challenge: _,
            noted: _,
            open: _,
            lost: _,
            has_received: _,
            has_retired: _,
            peers: _,
            untaken: _,
            look: _,
        } = self;
    }
}

// Returns whether a datagram is a full frame. Only a full frame needs the challenge.
fn is_full(octets: &[u8]) -> bool {
    match octets.first() {
        Some(octet) => *octet >= 0x80,
        None => false,
    }
}

impl<'t> TraceLane<'t> {
    /// Returns the end of the thread at this place, from 0 on, without notes.
    ///
    /// Returns `AllocError` if a request for memory was refused.
    pub fn new(
        alloc: Global,
        trace: &'t Trace,
        thread: usize,
    ) -> Result<TraceLane<'t>, AllocError> {
        let Some(challenge) = Challenge::new(b"0") else {
            unreachable!()
        };
        Ok(TraceLane {
            trace,
            thread,
            now: 0,
            challenge,
            noted: Batch::new(alloc)?,
            open: None,
            lost: 0,
            has_received: false,
            has_retired: false,
            peers: 0,
            untaken: 0,
            look: None,
        })
    }

    // Returns whether there is room for one more call. If there is none, ends the open call and hands the notes over first.
    fn make_room<R: Wait>(&mut self, rt: &R) -> bool {
        if self.noted.has_room(1, LONGEST) {
            return true;
        }
        self.end();
        self.trace.hand_over(rt, self.thread, &mut self.noted);
        self.noted.has_room(1, LONGEST)
    }

    // Begins a call with this input and these octets, which come in two pieces, and ends the open call. Without room it
    // isn't noted. Inlined with its callees, so that an input isn't copied through memory from one to the next.
    #[inline(always)]
    fn begin<R: Wait>(&mut self, rt: &R, input: Input, front: &[u8], back: &[u8]) {
        if self.trace.has_ended() {
            self.end();
        } else if self.make_room(rt) {
            let call = self.next_call();
            let input = self.note(call, input, front, back);
            self.open = Some((call, input));
        } else {
            self.lost = self.lost.wrapping_add(1);
            self.trace.count_lost();
        }
    }

    // Returns the next call, and ends the open one.
    #[inline(always)]
    fn next_call(&mut self) -> OpenCall {
        let Some((call, input)) = self.open.take() else {
            return self.trace.calls.begin();
        };
        let (is_beside, next) = self.trace.calls.follow(call);
        self.noted.end_last(input, is_beside);
        next
    }

    // Ends the open call.
    fn end(&mut self) {
        if let Some((call, input)) = self.open.take() {
            let is_beside = self.trace.calls.end(call);
            self.noted.end_last(input, is_beside);
        }
    }

    // Notes a call with its octets, and returns the noted input. Without room for the octets it notes a call without
    // effect, because the writer waits for each number.
    #[inline(always)]
    fn note(&mut self, call: OpenCall, input: Input, front: &[u8], back: &[u8]) -> Input {
        let mark = Mark {
            number: call.number,
            now: self.now,
            input,
            is_beside: call.is_beside,
            lost: self.lost,
            octets: 0,
        };
        self.lost = 0;
        if self.noted.push(mark, front, back) {
            return input;
        }
        let mark = mark.emptied();
        let _ = self.noted.push(mark, b"", b"");
        mark.input
    }

    // Continues the last batch that was handed over, if the writer hasn't taken it. So short turns don't use up the
    // batches.
    fn resume<R: Wait>(&mut self, rt: &R) {
        self.trace.resume(rt, self.thread, &mut self.noted);
    }

    // Hands the notes over. No call is open.
    fn hand_over<R: Wait>(&mut self, rt: &R) {
        if !self.noted.is_empty() {
            self.trace.hand_over(rt, self.thread, &mut self.noted);
        }
    }

    /// Begins a turn of the worker, at this moment, in milliseconds since the exchange was opened, with this challenge.
    pub fn begin_turn<R: Wait>(&mut self, rt: &R, now: u64, challenge: &Challenge) {
        self.trace.begin_turn();
        self.resume(rt);
        self.now = now;
        self.challenge = challenge.copied();
        self.has_received = false;
        self.has_retired = false;
        self.peers = 0;
        self.untaken = 0;
    }

    /// Notes the datagram that is given to the exchange next. `peer` is `None` if no peer has the endpoint. The challenge is
    /// noted only with a peer's full frame ("Full Frames").
    pub fn datagram<R: Wait>(
        &mut self,
        rt: &R,
        peer: Option<PeerId>,
        from: Endpoint,
        octets: &[u8],
    ) {
        self.has_received = true;
        match peer {
            Some(peer) if is_full(octets) => {
                let text = self.challenge.copied();
                let text = text.as_slice();
                let challenge = text.len() as u8;
                let peer = peer.get();
                self.begin(rt, Input::Datagram { peer, challenge }, text, octets);
            }
            Some(peer) => {
                let challenge = 0;
                let peer = peer.get();
                self.begin(rt, Input::Datagram { peer, challenge }, b"", octets);
            }
            None => self.begin(rt, Input::Stranger { from }, b"", octets),
        }
    }

    /// Notes that the peers of the worker are ticked next.
    pub fn tick<R: Wait>(&mut self, rt: &R) {
        self.begin(rt, Input::Tick, b"", b"");
    }

    /// Notes that the last datagram is turned away, not given to the exchange.
    pub fn turn_away(&mut self) {
        if let Some((_, input)) = &mut self.open {
            if let Input::Datagram { peer, challenge } = *input {
                *input = Input::TurnedAway { peer, challenge };
            }
        }
    }

    /// Notes that the exchange refused the last datagram before it reserved a number for it.
    pub fn refuse(&mut self) {
        if let Some((_, input)) = &mut self.open {
            if let Input::Datagram { peer, challenge } = *input {
                *input = Input::Refused { peer, challenge };
            }
        }
    }

    /// Notes that a leg was taken out in this turn.
    pub fn retire(&mut self) {
        self.has_retired = true;
    }

    /// Notes a datagram sent to a peer of the plan, after the ticks. `is_taken` is false if the socket lost it.
    pub fn send(&mut self, peer: PeerId, is_taken: bool) {
        if self.peers == 0 {
            self.end();
        }
        self.peers |= 1u32.wrapping_shl(u32::from(peer.get()));
        if !is_taken {
            self.untaken = self.untaken.saturating_add(1);
        }
    }

    /// Ends the turn. A turn in which nothing was received or sent, and no leg was taken out, isn't noted. If a leg was
    /// taken out, the last note is a send, so that the leg ends at the same place in a replay.
    pub fn end_turn<R: Wait>(&mut self, rt: &R) {
        if self.peers == 0 {
            if !self.has_received && !self.has_retired {
                self.forget();
            }
            self.end();
        }
        // The script reports a retired leg at a send, so there is a send even without datagrams.
        if self.peers != 0 || self.has_retired {
            let (peers, lost) = (self.peers, self.untaken);
            self.begin(rt, Input::Send { peers, lost }, b"", b"");
            self.end();
        }
        self.hand_over(rt);
        self.trace.end_turn();
    }

    // Marks the open call as one without effect.
    fn forget(&mut self) {
        if let Some((_, input)) = &mut self.open {
            *input = Input::Nothing;
        }
    }

    /// Notes that a call is placed next, to this peer. `now` is in milliseconds since the exchange
    /// was opened. A number of more than 2,081 octets is noted as an empty one.
    pub fn begin_call<R: Wait>(&mut self, rt: &R, now: u64, peer: PeerId, number: &[u8]) {
        self.resume(rt);
        self.now = now;
        let number = if number.len() <= LONGEST { number } else { b"" };
        self.begin(rt, Input::Call { peer: peer.get() }, number, b"");
    }

    /// Notes that the leg of this local number hangs up next. `now` is in milliseconds since the exchange was opened.
    pub fn begin_hang_up<R: Wait>(&mut self, rt: &R, now: u64, number: u16) {
        self.resume(rt);
        self.now = now;
        self.begin(rt, Input::HangUp { number }, b"", b"");
    }

    /// Notes that all peers drain next, or none. `now` is in milliseconds since the exchange was opened.
    pub fn begin_drain<R: Wait>(&mut self, rt: &R, now: u64, drains: bool) {
        self.resume(rt);
        self.now = now;
        self.trace.set_draining(drains);
        self.begin(rt, Input::Drain { drains }, b"", b"");
    }

    /// Notes the end of the last order, whether it was made or refused.
    pub fn end_order<R: Wait>(&mut self, rt: &R) {
        self.end();
        self.hand_over(rt);
    }

    /// Returns whether the caller has to check next if any leg is up, because a new file may begin when none is. Returns
    /// false while a call of the exchange or a turn is open.
    pub fn begin_look(&mut self) -> bool {
        self.look = None;
        if self.trace.wants_rest() {
            // Read first: a turn that begins after this gets a greater number, or is seen below.
            let begun = self.trace.calls.begun_if_none_is_open();
            if !self.trace.has_turn() {
                self.look = begun;
            }
        }
        self.look.is_some()
    }

    /// Notes the result of the check, at `now`, in milliseconds since the exchange was opened. `rest` is the serial of the next
    /// leg if no leg of the plan's peers is up and no media waits. Nothing is noted if it is `None`, or if `begin_look` didn't
    /// return true before.
    pub fn end_look<R: Wait>(
        &mut self,
        rt: &R,
        alloc: Global,
        now: u64,
        plan: &Plan,
        rest: Option<u64>,
    ) {
        let (Some(begun), Some(serial)) = (self.look.take(), rest) else {
            return;
        };
        if self.trace.has_ended() {
            return;
        }
        self.resume(rt);
        if !self.make_room(rt) {
            return;
        }
        self.now = now;
        let call = self.trace.calls.begin();
        let orders = orders_of(alloc, self.trace, plan, serial);
        let is_beside = self.trace.calls.end(call);
        let call = OpenCall {
            number: call.number,
            is_beside,
        };
        if !is_beside && call.number == begun && !orders.is_cut {
            self.note(call, Input::Rest, &orders.octets, b"");
        } else {
            self.note(call, Input::Nothing, b"", b"");
        }
        self.hand_over(rt);
    }
}
