//! Plays the lines of a script on an exchange, and reports the result of each to a viewer.
use crate::ScriptLine;
use crate::free_order::{count_numbers, order_free};
use crate::outboxes::empty_outbox;
use crate::replay_context::ReplayContext;
use crate::stages::Stages;
use crate::viewer::{PeerOfPlan, ReceivedDatagram, Stop, Viewer};
use crate::words::{Sender, key_of, octets_of, peer_of, places_of, sender_of};
use call_auth::Challenge;
use exchange_core::{Answer, Refusal, Retired, call_error_name, order_error_name, refusal_name};
use peer_lock::{LedgerSet, Status};
use peer_plan::{PeerId, Plan};
use std::alloc::Global;
use std::sync::Wait;

// The kinds of lines up to one of them.
#[derive(Clone, Copy)]
enum Begun {
    Nothing,
    // The prefix of challenges alone.
    Prefix,
    // Of an offset of timestamps, too.
    Offset,
    // Of a key or an order of free numbers, too.
    Opening,
    More,
}

impl Begun {
    // The same, with this line, which wasn't refused.
    fn with(self, line: &ScriptLine<'_>) -> Begun {
        match (self, line) {
            (Begun::More, _) => Begun::More,
            (_, ScriptLine::Prefix(_)) => Begun::Prefix,
            (_, ScriptLine::Offset(_)) => Begun::Offset,
            (_, ScriptLine::Key(_) | ScriptLine::Free(_, _)) => Begun::Opening,
            _ => Begun::More,
        }
    }
}

/// The state between two lines of a script.
#[derive(Drop)]
pub struct Player {
    now: u64,
    challenge: Challenge,
    // The kinds of lines so far.
    begun: Begun,
    // How many serials `free` lines used.
    used: u64,
    // Whether datagrams wait for a line that sends them.
    holds: bool,
    // The stages that were reported to the viewer.
    stages: Stages,
    // The legs that were taken out since datagrams were last sent.
    retired: Vec<Retired>,
}

// Returns whether a datagram is a full frame. Only a full frame can open a leg or change the stage of one.
fn is_full(octets: &[u8]) -> bool {
    match octets.first() {
        Some(octet) => *octet >= 0x80,
        None => false,
    }
}

// Returns whether a line is an event of the exchange that is reported to a viewer.
fn is_event(line: &ScriptLine<'_>) -> bool {
    match line {
        ScriptLine::Rx(_, _) | ScriptLine::Stranger(_, _) | ScriptLine::Call(_, _) => true,
        ScriptLine::HangUp(_) | ScriptLine::Tick | ScriptLine::TickOf(_) => true,
        _ => false,
    }
}

impl Player {
    /// Returns a player at the moment 0, in milliseconds, with the challenge `0` and no leg. Returns `None` if memory was
    /// refused.
    pub fn new(alloc: Global, plan: &Plan) -> Option<Player> {
        let challenge = Challenge::new(b"0")?;
        Some(Player {
            now: 0,
            challenge,
            begun: Begun::Nothing,
            used: 0,
            holds: false,
            stages: Stages::new(alloc, plan).ok()?,
            retired: Vec::new(alloc),
        })
    }

    /// Plays a line, and reports its results to the viewer. An empty line and `settle` do nothing here.
    ///
    /// Returns `Memory` if a request for memory was refused, the viewer's `Err`, or `Script`:
    ///
    /// - No peer has the name in the line, or a stranger's endpoint is a peer's.
    /// - `at` has an earlier moment, or `back` a later one.
    /// - A challenge, a key, an endpoint, a datagram or a list of numbers is malformed.
    /// - `prefix` isn't the first line, `offset` has a line other than `prefix` before it, or `key` one other than both.
    /// - The offset doesn't fit 32 bits.
    /// - `serial` has a line other than these and `free` before it, or is less than the serials that these used.
    pub(crate) fn line<J: LedgerSet, R: Wait, V: Viewer>(
        &mut self,
        context: &mut ReplayContext<'_, R, J, V>,
        line: &ScriptLine<'_>,
    ) -> Result<(), Stop> {
        let worked = match self.begin(line, context.viewer) {
            Ok(sends) => match self.work(context, line) {
                Ok(()) if sends => self.send(context, &ScriptLine::Send),
                worked => worked,
            },
            Err(stop) => Err(stop),
        };
        self.begun = self.begun.with(line);
        worked
    }

    // Begins a line, and reports it to the viewer if it is an event. Returns whether its datagrams are sent at once.
    fn begin<V: Viewer>(&self, line: &ScriptLine<'_>, viewer: &mut V) -> Result<bool, Stop> {
        if !is_event(line) {
            return Ok(false);
        }
        match viewer.asked(self.now, line) {
            Ok(()) => Ok(!self.holds),
            Err(stop) => Err(stop),
        }
    }

    // Does what the line asks for.
    fn work<J: LedgerSet, R: Wait, V: Viewer>(
        &mut self,
        context: &mut ReplayContext<'_, R, J, V>,
        line: &ScriptLine<'_>,
    ) -> Result<(), Stop> {
        match line {
            ScriptLine::Rx(_, digits) | ScriptLine::Stranger(_, digits) => self.receive(
                context, line, digits,
            ),
            ScriptLine::Call(peer, number) => self.call(context, peer, number),
            ScriptLine::HangUp(number) => self.hang_up(context, *number),
            ScriptLine::Tick | ScriptLine::TickOf(_) => self.tick(context, line),
            ScriptLine::Send | ScriptLine::SendTo(_) => self.send(context, line),
            ScriptLine::Drain(drains) => {
                context
                    .exchange
                    .set_all_draining(context.rt, context.pass, *drains);
                Ok(())
            }
            ScriptLine::Free(peer, numbers) => {
                self.stages.doubt();
                self.used = self.used.saturating_add(count_numbers(numbers));
                order_free(context, peer, numbers, self.now, &self.challenge)
            }
            _ => self.set(line),
        }
    }

    // Returns whether this can be the prefix of the exchange's challenges, and is the script's first line.
    fn may_take_prefix(&self, text: &[u8]) -> bool {
        matches!(self.begun, Begun::Nothing) && Challenge::new(text).is_some()
    }

    // Returns whether an offset fits 32 bits, and has no line but `prefix` before it.
    fn may_take_offset(&self, offset: u64) -> bool {
        matches!(self.begun, Begun::Nothing | Begun::Prefix) && u32::try_from(offset).is_ok()
    }

    // Returns whether this is a key, and has no line but `prefix` and `offset` before it.
    fn may_take_key(&self, digits: &[u8]) -> bool {
        matches!(self.begun, Begun::Nothing | Begun::Prefix | Begun::Offset)
            && key_of(digits).is_some()
    }

    // Whether this may be the serial of the next leg: only `free` lines used serials before, and no more of them.
    fn may_take_serial(&self, serial: u64) -> bool {
        !matches!(self.begun, Begun::More) && self.used <= serial
    }

    // Applies a line that sets a value for the lines after it.
    fn set(&mut self, line: &ScriptLine<'_>) -> Result<(), Stop> {
        match line {
            ScriptLine::At(moment) if *moment >= self.now => self.now = *moment,
            ScriptLine::Back(moment) if *moment <= self.now => self.now = *moment,
            ScriptLine::At(_) | ScriptLine::Back(_) => return Err(Stop::Script),
            ScriptLine::Challenge(text) => match Challenge::new(text) {
                Some(challenge) => self.challenge = challenge,
                None => return Err(Stop::Script),
            },
            // The exchange was opened with it.
            ScriptLine::Prefix(text) if !self.may_take_prefix(text) => return Err(Stop::Script),
            ScriptLine::Offset(offset) if !self.may_take_offset(*offset) => return Err(
                Stop::Script,
            ),
            ScriptLine::Key(digits) if !self.may_take_key(digits) => return Err(Stop::Script),
            ScriptLine::Serial(serial) if !self.may_take_serial(*serial) => return Err(
                Stop::Script,
            ),
            ScriptLine::Hold => self.holds = true,
            _ => {}
        }
        Ok(())
    }

    // Receives the datagram of a line.
    fn receive<J: LedgerSet, R: Wait, V: Viewer>(
        &mut self,
        context: &mut ReplayContext<'_, R, J, V>,
        line: &ScriptLine<'_>,
        digits: &[u8],
    ) -> Result<(), Stop> {
        match sender_of(context.exchange.plan(), line) {
            Ok(sender) => match octets_of(context.alloc, digits) {
                Ok(octets) => self.receive_octets(context, sender, &octets),
                Err(stop) => Err(stop),
            },
            Err(stop) => Err(stop),
        }
    }

    // Receives these octets.
    fn receive_octets<J: LedgerSet, R: Wait, V: Viewer>(
        &mut self,
        context: &mut ReplayContext<'_, R, J, V>,
        sender: Sender<'_>,
        octets: &[u8],
    ) -> Result<(), Stop> {
        let Sender { from, peer } = sender;
        if peer.is_some() && is_full(octets) {
            self.stages.doubt();
        }
        let (now, challenge) = (self.now, &self.challenge);
        let answer = context
            .exchange
            .datagram(context.rt, context.pass, from, octets, now, challenge);
        let refused = self.keep(answer);
        self.report_received(peer, octets, refused, context.viewer)
    }

    // Reports a datagram from a peer to the viewer, or the refusal of a stranger's.
    fn report_received<V: Viewer>(
        &self,
        peer: Option<PeerOfPlan<'_>>,
        octets: &[u8],
        refused: Result<Option<Refusal>, Stop>,
        viewer: &mut V,
    ) -> Result<(), Stop> {
        match peer {
            Some(peer) => {
                let refusal = refused?;
                viewer.received(ReceivedDatagram {
                    moment: self.now,
                    peer,
                    octets,
                    refusal,
                })
            }
            None => self.report_refusal(refused, viewer),
        }
    }

    // Places a call.
    fn call<J: LedgerSet, R: Wait, V: Viewer>(
        &mut self,
        context: &mut ReplayContext<'_, R, J, V>,
        peer: &[u8],
        number: &[u8],
    ) -> Result<(), Stop> {
        let peer = peer_of(context.exchange.plan(), peer)?;
        self.stages.doubt();
        match context
            .exchange
            .call(context.rt, context.pass, peer, number, self.now)
        {
            Ok(_) => Ok(()),
            Err(error) => context.viewer.refused(self.now, call_error_name(error)),
        }
    }

    // Hangs up the leg of a number.
    fn hang_up<J: LedgerSet, R: Wait, V: Viewer>(
        &mut self,
        context: &mut ReplayContext<'_, R, J, V>,
        number: u64,
    ) -> Result<(), Stop> {
        let number = u16::try_from(number).unwrap_or(0);
        match self.stages.status(context, number) {
            Some(Status { name, .. }) if name.peer < context.exchange.plan().peer_count() => {
                self.stages.doubt_live();
                match context
                    .exchange
                    .hang_up(context.rt, context.pass, name, self.now)
                {
                    Ok(answer) => self.answered(answer, context.viewer),
                    Err(error) => context.viewer.refused(self.now, order_error_name(error)),
                }
            }
            _ => context.viewer.refused(self.now, "NoLeg"),
        }
    }

    // Ticks the peers that the line names, or all, in the order of the plan.
    fn tick<J: LedgerSet, R: Wait, V: Viewer>(
        &mut self,
        context: &mut ReplayContext<'_, R, J, V>,
        line: &ScriptLine<'_>,
    ) -> Result<(), Stop> {
        let exchange = context.exchange;
        let (first, end) = places_of(exchange.plan(), line)?;
        self.stages.doubt_live();
        for place in first..end {
            let answer = exchange.tick(context.rt, context.pass, PeerId::new(place), self.now);
            if let Err(stop) = self.answered(answer, context.viewer) {
                return Err(stop);
            }
        }
        Ok(())
    }

    // Keeps the legs that were taken out until datagrams are sent, and reports a refusal.
    fn answered<V: Viewer>(&mut self, answer: Answer, viewer: &mut V) -> Result<(), Stop> {
        let refused = self.keep(answer);
        self.report_refusal(refused, viewer)
    }

    // Reports a refusal, if there is one.
    fn report_refusal<V: Viewer>(
        &self,
        refused: Result<Option<Refusal>, Stop>,
        viewer: &mut V,
    ) -> Result<(), Stop> {
        match refused {
            Ok(Some(refusal)) => viewer.refused(self.now, refusal_name(refusal)),
            Ok(None) => Ok(()),
            Err(stop) => Err(stop),
        }
    }

    // Keeps the legs that were taken out until datagrams are sent. Returns the refusal, if there is one; then there are no
    // such legs.
    fn keep(&mut self, answer: Answer) -> Result<Option<Refusal>, Stop> {
        let Answer {
            refused,
            retired,
            ..
        } = answer;
        match self.retired.extend(retired) {
            Ok(()) => Ok(refused),
            Err(_) => Err(Stop::Memory),
        }
    }

    // Sends the datagrams that a line left, or that all lines left since the last send. They go to the peers that the line
    // names, or to all, in the order of the plan. Then reports the legs that were taken out, and the stages that changed.
    fn send<J: LedgerSet, R: Wait, V: Viewer>(
        &mut self,
        context: &mut ReplayContext<'_, R, J, V>,
        line: &ScriptLine<'_>,
    ) -> Result<(), Stop> {
        let (first, end) = places_of(context.exchange.plan(), line)?;
        for place in first..end {
            if let Err(stop) = empty_outbox(context, PeerId::new(place), self.now) {
                return Err(stop);
            }
        }
        match self.report_retired(context.viewer) {
            Ok(()) => self.stages.report_changes(context, self.now),
            Err(stop) => Err(stop),
        }
    }

    // Reports the legs that were taken out, by ascending number.
    fn report_retired<V: Viewer>(&mut self, viewer: &mut V) -> Result<(), Stop> {
        if self.retired.is_empty() {
            return Ok(());
        }
        for place in 0..self.stages.count() {
            for retired in &self.retired {
                if usize::from(retired.name.number) == place.saturating_add(1) {
                    if let Err(stop) = viewer.retired(self.now, retired) {
                        return Err(stop);
                    }
                }
            }
        }
        self.retired.clear();
        Ok(())
    }
}
