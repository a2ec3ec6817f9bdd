//! The lines of the script.
ghost use Rattle.std.specs.Prelude.{◌≡◌, ◌++◌, ◌∷◌, ◌≤◌, [], OnOk, length};
ghost use Rattle.hex.specs.Hex.{encode_lower};
ghost use Rattle.trace_writer.specs.Digits.{spells_digit, hidden, shown};

use crate::free_numbers::drain_line;
use crate::hexadecimal::end_in_hex;
use crate::mark::{Input, Mark};
use peer_plan::{Endpoint, PeerId, Plan};
use plain_text::TextBuffer;
use std::alloc::{AllocError, Global};
use std::io::Write;

/// How a trace is written.
#[derive(Clone, Copy)]
pub(crate) struct Manner {
    /// Whether digits are shown.
    pub(crate) shows_digits: bool,
}

/// The values of a file's first lines.
#[derive(Clone, Copy)]
pub(crate) struct Head<'a> {
    /// The first line: whether a replay of the file gives the same datagrams.
    pub(crate) exactness: &'static str,
    /// The line about the service.
    pub(crate) about: &'a str,
    /// The number of the file, from 1 on.
    pub(crate) part: u64,
}

/// Lines to be written to a file, and the state that the lines before them set.
#[derive(Drop)]
pub(crate) struct Script<'p> {
    alloc: Global,
    pub(crate) plan: &'p Plan,
    manner: Manner,
    // The beginning of a datagram's line, for each peer by its place in the plan.
    heads: Vec<String>,
    pub(crate) lines: TextBuffer,
    now: u64,
    challenge: Vec<u8>,
    // The number of calls of the exchange that are missing since the last line.
    missing: u64,
}

// Returns whether a full frame is a digit ("Frame Types").
fn is_digit(octets: &[u8]) -> bool
    ensures { result ≡ spells_digit octets.now }
{
    octets.len() >= 12 && octets[0] >= 0x80 && matches!(octets[10] & 0x7f, 1 | 12)
}

// Adds the octets of a frame that is a digit, with 0 in its place, in hexadecimal digits, and ends the line.
fn end_hidden(alloc: Global, text: &mut Vec<u8>, octets: &[u8]) -> Result<(), AllocError>
    requires { 12 ≤ length octets.now }
    ensures { OnOk result (text.new.items ≡ text.old.items ++ encode_lower (hidden octets.now) ++ 10 ∷ []) }
{
    let mut hidden = Vec::new(alloc);
    hidden.extend_from_slice(octets)?;
    hidden[11] = b'0';
    end_in_hex(text, &hidden)
}

// Adds the octets of a datagram, with 0 for a digit if digits are hidden, and ends the line.
fn end_in_octets(
    alloc: Global,
    manner: Manner,
    text: &mut Vec<u8>,
    octets: &[u8],
) -> Result<(), AllocError>
    ensures { OnOk result (text.new.items
        ≡ text.old.items ++ encode_lower (shown manner.shows_digits octets.now) ++ 10 ∷ []) }
{
    if manner.shows_digits || !is_digit(octets) {
        end_in_hex(text, octets)
    } else {
        end_hidden(alloc, text, octets)
    }
}

// Returns the beginning of a datagram's line, for each peer.
fn heads_of(alloc: Global, plan: &Plan) -> Result<Vec<String>, AllocError> {
    let mut heads = Vec::new(alloc);
    for place in 0..plan.peer_count() {
        let peer = PeerId::new(place);
        let head = format!(in alloc; "rx {} ", plan.name(peer))?;
        if heads.push(head).is_err() {
            return Err(AllocError);
        }
    }
    Ok(heads)
}

// Returns the peers of a worker, as bits.
fn peers_of(plan: &Plan, thread: usize) -> u32 {
    let mut peers: u32 = 0;
    for place in 0..plan.peer_count() {
        let peer = PeerId::new(place);
        if plan.worker(peer).index() == thread {
            peers |= 1u32.wrapping_shl(u32::from(place));
        }
    }
    peers
}

// Adds a line for each of these peers, or one for all if there is only one worker.
fn write_peers(plan: &Plan, command: &str, peers: u32, lines: &mut TextBuffer) {
    if plan.workers().len() == 1 {
        lines.text(command);
        return lines.text("\n");
    }
    for place in 0..plan.peer_count() {
        let peer = PeerId::new(place);
        if peers.wrapping_shr(u32::from(place)) & 1 == 1 {
            lines.text(command);
            lines.text(" ");
            lines.text(plan.name(peer));
            lines.text("\n");
        }
    }
}

// Returns whether a text can be a word of a line.
fn is_word(text: &[u8]) -> bool {
    for octet in text {
        if !octet.is_ascii_graphic() {
            return false;
        }
    }
    !text.is_empty()
}

// Returns the key of the call tokens, if a peer needs them.
fn token_key(plan: &Plan) -> Option<[u8; 32]> {
    for place in 0..plan.peer_count() {
        let peer = PeerId::new(place);
        if let Some(tokens) = plan.call_tokens(peer) {
            let key = tokens.key;
            return Some(key);
        }
    }
    None
}

// Returns the name of a peer, or an empty text if the plan has no such peer.
fn name_of(plan: &Plan, peer: PeerId) -> &str {
    if peer.get() < plan.peer_count() {
        plan.name(peer)
    } else {
        ""
    }
}

impl<'p> Script<'p> {
    /// Returns an empty script.
    ///
    /// `AllocError`: a request for memory was refused.
    pub(crate) fn new(
        alloc: Global,
        plan: &'p Plan,
        manner: Manner,
    ) -> Result<Script<'p>, AllocError> {
        Ok(Script {
            alloc,
            plan,
            manner,
            heads: heads_of(alloc, plan)?,
            lines: TextBuffer::new(alloc),
            now: 0,
            challenge: Vec::new(alloc),
            missing: 0,
        })
    }

    /// Adds the first lines of a file. A file with orders of free numbers begins at the moment 0 with the challenge `0`, as
    /// a replay does. Another continues at the moment of the last line of the file before it, and can be appended to that
    /// file.
    pub(crate) fn begin(&mut self, head: &Head<'_>, orders: Option<&[u8]>) {
        self.challenge.clear();
        self.lines.text(head.exactness);
        self.lines.text("# ");
        self.lines.text(head.about);
        self.lines.text(", part ");
        self.lines.number(head.part);
        self.lines.text(".\n");
        match orders {
            Some(orders) => {
                self.now = 0;
                self.write_drawn();
                self.lines.put(orders);
                self.lines.text("hold\n");
            }
            None => {
                self.lines.text("hold\n");
                self.write_moment("at ");
            }
        }
    }

    /// Adds a line with the number of refused datagrams that were left out.
    pub(crate) fn leave_out(&mut self, refused: u64) {
        if refused > 0 {
            self.lines.text("# Left out: refused datagrams, ");
            self.lines.number(refused);
            self.lines.text(" of them.\n");
        }
    }

    /// Adds the last lines of a service that has ended: its accounts are closed.
    pub(crate) fn end(&mut self) {
        self.lines.text("settle\n");
    }

    /// Adds the lines of a call that a thread made. Returns false if there was no memory for them; then none is added, and
    /// the next lines report it.
    pub(crate) fn push(&mut self, thread: usize, mark: &Mark, octets: &[u8]) -> bool {
        let (length, now) = (self.lines.octets.len(), self.now);
        let missing = self.missing.saturating_add(mark.lost);
        self.missing = missing;
        match mark.input {
            Input::Datagram { peer, challenge: 0 } if self.goes_on(mark) => {
                self.write_datagram(PeerId::new(peer), octets);
            }
            Input::Nothing | Input::Rest => {}
            input => {
                self.begin_call(mark);
                self.write_input(thread, input, octets);
            }
        }
        // Reserves the end octet of the file, which is written with these lines.
        if !self.lines.is_cut && self.lines.octets.reserve(1).is_ok() {
            return true;
        }
        self.lines.octets.truncate(length);
        self.lines.is_cut = false;
        self.now = now;
        self.challenge.clear();
        self.missing = missing.saturating_add(1);
        false
    }

    // Adds the comments and the moment that belong before the input of a call.
    fn begin_call(&mut self, mark: &Mark) {
        if self.missing > 0 {
            self.lines.text("# Not exact from here on: ");
            self.lines.number(self.missing);
            self.lines.text(" calls of the exchange are missing.\n");
        }
        if mark.is_beside {
            self.lines.text("# The next was at work at the same time as another one.\n");
        }
        let before = self.now;
        self.now = mark.now;
        if mark.now > before {
            self.write_moment("at ");
        } else if mark.now < before {
            self.write_moment("back ");
        }
        self.missing = 0;
    }

    // Returns whether a call needs no line before its input.
    fn goes_on(&self, mark: &Mark) -> bool {
        self.missing == 0 && !mark.is_beside && mark.now == self.now
    }

    // Adds the values that the exchange drew when it was opened: the prefix of its challenges, the offset of its POKEs'
    // timestamps, and, if a peer needs call tokens, their key.
    fn write_drawn(&mut self) {
        if let Some(prefix) = self.plan.challenge_prefix() {
            self.lines.text("prefix ");
            self.lines.put(prefix.as_slice());
            self.lines.text("\n");
        }
        let offset = self.plan.poke_offset();
        if offset > 0 {
            self.lines.text("offset ");
            self.lines.number(u64::from(offset));
            self.lines.text("\n");
        }
        if let Some(key) = token_key(self.plan) {
            let mut digits = [0u8; 64];
            let _ = hex::encode_to_slice(&key, &mut digits);
            self.lines.text("key ");
            self.lines.put(&digits);
            self.lines.text("\n");
        }
    }

    fn write_moment(&mut self, command: &str) {
        self.lines.text(command);
        self.lines.number(self.now);
        self.lines.text("\n");
    }

    // Adds the input of a call.
    fn write_input(&mut self, thread: usize, input: Input, octets: &[u8]) {
        match input {
            Input::Datagram { peer, challenge } | Input::Refused { peer, challenge } => {
                let (challenge, octets) = octets.split_at(octets.len().min(usize::from(challenge)));
                self.write_challenge(challenge);
                self.write_datagram(PeerId::new(peer), octets);
            }
            Input::TurnedAway { peer, challenge } => {
                self.lines.text("# Turned away, since the service drains: ");
                let octets = octets.get(usize::from(challenge)..).unwrap_or(b"");
                self.write_datagram(PeerId::new(peer), octets);
            }
            Input::Stranger { from } => self.write_stranger(from, octets),
            Input::Tick => {
                let peers = peers_of(self.plan, thread);
                write_peers(self.plan, "tick", peers, &mut self.lines);
            }
            Input::Send { peers: 0, lost } => {
                let peers = peers_of(self.plan, thread);
                self.write_sends(peers, lost);
            }
            Input::Send { peers, lost } => self.write_sends(peers, lost),
            Input::Call { peer } => self.write_call(PeerId::new(peer), octets),
            Input::HangUp { number } => {
                self.lines.text("hangup ");
                self.lines.number(u64::from(number));
                self.lines.text("\n");
            }
            Input::Drain { drains } => self.lines.text(drain_line(drains)),
            Input::Nothing | Input::Rest => {}
        }
    }

    // Adds the sends to these peers.
    fn write_sends(&mut self, peers: u32, lost: u32) {
        if lost > 0 {
            self.lines.text("# The socket didn't take ");
            self.lines.number(u64::from(lost));
            self.lines.text(" of the next datagrams.\n");
        }
        write_peers(self.plan, "send", peers, &mut self.lines);
    }

    // Adds the challenge if it differs from the last one and the datagram needs it.
    fn write_challenge(&mut self, challenge: &[u8]) {
        if challenge.is_empty() || self.challenge.as_slice() == challenge {
            return;
        }
        self.challenge.clear();
        if self.challenge.extend_from_slice(challenge).is_err() {
            self.lines.is_cut = true;
        }
        self.lines.text("challenge ");
        self.lines.put(challenge);
        self.lines.text("\n");
    }

    // Adds a datagram of a peer. One without octets has no line, and does nothing.
    fn write_datagram(&mut self, peer: PeerId, octets: &[u8]) {
        if octets.is_empty() {
            self.lines.text("# Without an octet: ");
        }
        if let Some(head) = self.heads.get(peer.index()) {
            self.lines.text(head);
        }
        if end_in_octets(self.alloc, self.manner, &mut self.lines.octets, octets).is_err() {
            self.lines.is_cut = true;
        }
    }

    // Adds a datagram of an endpoint that no peer has.
    fn write_stranger(&mut self, from: Endpoint, octets: &[u8]) {
        if octets.is_empty() {
            self.lines.text("# Without an octet: ");
        }
        let [a, b, c, d] = from.address;
        if write!(self.lines.octets, "stranger {a}.{b}.{c}.{d}:{} ", from.port).is_err() {
            self.lines.is_cut = true;
        }
        if end_in_hex(&mut self.lines.octets, octets).is_err() {
            self.lines.is_cut = true;
        }
    }

    // Adds a call that an order placed.
    fn write_call(&mut self, peer: PeerId, number: &[u8]) {
        if !is_word(number) {
            return self
                .lines
                .text("# A call to a number that is none was refused.\n");
        }
        self.lines.text("call ");
        self.lines.text(name_of(self.plan, peer));
        self.lines.text(" ");
        self.lines.put(number);
        self.lines.text("\n");
    }
}
