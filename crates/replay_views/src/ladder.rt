//! Diagrams of calls, as SVG or as plain text of at most 100 columns. Each peer and the exchange have a lifeline. Each
//! frame is an arrow with its name and elements. Media is folded, and the stages of legs appear next to the exchange's
//! lifeline.
//!
//! Add the peers, and then the datagrams, orders and stages in the order in which they come, to a `Ladder`, and draw it.
mod elements;
mod frames;
pub mod laws;
mod legend;
mod media_runs;
mod number_pairs;
mod pieces;
mod row;
mod sides;
mod svg;
mod text;
mod words;
mod wrapping;
mod xml;

use crate::ladder::frames::{write_full, write_numbers};
use crate::ladder::number_pairs::NumberPairs;
use crate::ladder::row::{Row, RowKind, Scene, row_of};
use crate::ladder::sides::{Peer, Sides};
use crate::ladder::svg::write_svg;
use crate::ladder::text::write_text;
use crate::ladder::words::write_count;
use call_signals::Message;
use iax_frames::{CallNumber, Datagram, Full, Trunk, read};
pub use media_runs::{Direction, MediaKind, MediaPiece, MediaRun, MediaRuns, RunKey};
use std::alloc::{AllocError, Global};
use std::{io, mem};
pub use wrapping::split_line;
pub use xml::push_escaped;

/// A datagram between a peer and the exchange.
#[derive(Clone, Copy)]
pub struct DatagramEvent<'a> {
    /// In milliseconds.
    pub moment: u64,
    /// The place of the peer: peers are added from 0 on.
    pub peer: u16,
    pub direction: Direction,
    pub octets: &'a [u8],
    /// The exchange's refusal, if it refused the datagram.
    pub refusal: Option<&'static str>,
}

/// A ladder. The peers are added first, and then the events, in their order.
#[derive(Drop)]
pub struct Ladder {
    alloc: Global,
    peers: Vec<Peer>,
    rows: Rows,
    // The media since the last row.
    runs: MediaRuns,
    pairs: NumberPairs,
}

// The rows, and whether a request for memory was refused since the last call of `outcome`.
#[derive(Drop)]
struct Rows {
    list: Vec<Row>,
    is_cut: bool,
}

impl Rows {
    // Adds a finished row at the end.
    fn push(&mut self, row: Row) {
        let is_cut = row.text.is_cut || row.numbers.is_cut;
        if is_cut || self.list.push(row).is_err() {
            self.is_cut = true;
        }
    }

    // Returns an error if a request for memory was refused since the last call.
    fn outcome(&mut self) -> io::Result<()> {
        if mem::take(&mut self.is_cut) {
            return Err(io::Error::from(AllocError));
        }
        Ok(())
    }
}

impl Ladder {
    /// Returns a ladder without peers and rows. It takes no memory.
    pub fn new(alloc: Global) -> Ladder {
        Ladder {
            alloc,
            peers: Vec::new(alloc),
            rows: Rows {
                list: Vec::new(alloc),
                is_cut: false,
            },
            runs: MediaRuns::new(alloc),
            pairs: NumberPairs::new(alloc),
        }
    }

    /// Adds a peer, with its name in ASCII, the first of its call numbers at the exchange, and the count of these.
    ///
    /// Returns an error if a request for memory was refused.
    pub fn peer(&mut self, name: &str, first: u16, count: u16) -> io::Result<()> {
        let name = String::from_str(self.alloc, name)?;
        Ok(self.peers.push(Peer { name, first, count })?)
    }

    /// Adds a datagram ("Frame Types"). Accepted media is folded into the run of its call. Octets that aren't a frame have
    /// a row that says so.
    ///
    /// Returns an error if a request for memory was refused.
    pub fn datagram(&mut self, event: &DatagramEvent<'_>) -> io::Result<()> {
        match read(event.octets) {
            Ok(Datagram::Full(frame)) => self.full(event, &frame),
            Ok(Datagram::Mini(frame)) => {
                self.media(event, MediaKind::Mini, frame.source(), frame.media())
            }
            Ok(Datagram::Video(frame)) => {
                self.media(event, MediaKind::Video, frame.source(), frame.payload())
            }
            Ok(Datagram::Trunk(frame)) => self.trunk(event, &frame),
            Err(_) => self.no_frame(event, "no frame"),
        }
        self.rows.outcome()
    }

    /// Adds an event of the script at a moment in milliseconds, of the leg of a local number or of none.
    ///
    /// Returns an error if a request for memory was refused.
    pub fn order(&mut self, moment: u64, text: &[u8], number: Option<u16>) -> io::Result<()> {
        self.end_runs();
        let mut row = Row::new(self.alloc, RowKind::Order, moment);
        row.local = number;
        row.text.put(text);
        self.rows.push(row);
        self.rows.outcome()
    }

    /// Adds the refusal, by its name, of the last event at this moment, in milliseconds. Without such an event, a tick was
    /// refused.
    ///
    /// Returns an error if a request for memory was refused.
    pub fn refused(&mut self, moment: u64, name: &str) -> io::Result<()> {
        self.end_runs();
        let was_asked = match self.rows.list.last() {
            Some(row) => { row.kind == RowKind::Order && row.moment == moment && !row.is_refused }
            None => false,
        };
        if !was_asked {
            self.order(moment, b"tick", None)?;
        }
        if let Some(row) = self.rows.list.last_mut() {
            row.refuse(name);
            self.rows.is_cut = self.rows.is_cut || row.text.is_cut;
        }
        self.rows.outcome()
    }

    /// Adds the new stage of the leg of a local number, by its name, at a moment in milliseconds, or that the number is
    /// free again.
    ///
    /// Returns an error if a request for memory was refused.
    pub fn stage(&mut self, moment: u64, number: u16, name: &str, is_free: bool) -> io::Result<()> {
        self.end_runs();
        let mut row = Row::new(self.alloc, RowKind::Stage, moment);
        row.local = Some(number);
        row.peer = self.peer_of(number);
        row.text.labelled("leg ", u64::from(number));
        row.text.text(" ");
        row.text.text(name);
        if is_free {
            self.pairs.forget(number);
        }
        self.rows.push(row);
        self.rows.outcome()
    }

    /// Returns the ladder as the octets of an SVG: of all legs, or of the leg of one local number.
    ///
    /// Returns an error if a request for memory was refused.
    pub fn into_svg(mut self, leg: Option<u16>) -> io::Result<Vec<u8>> {
        self.draw(leg, false)
    }

    /// Returns the ladder as plain text of at most 100 columns: of all legs, or of the leg of one local number.
    ///
    /// Returns an error if a request for memory was refused.
    pub fn into_text(mut self, leg: Option<u16>) -> io::Result<Vec<u8>> {
        self.draw(leg, true)
    }

    fn draw(&mut self, leg: Option<u16>, is_text: bool) -> io::Result<Vec<u8>> {
        self.end_runs();
        let sides = Sides::of(self.alloc, &self.rows.list, self.peers.len(), leg);
        let scene = Scene {
            peers: &self.peers,
            sides: &sides,
            rows: &self.rows.list,
            leg,
        };
        let page = if is_text {
            write_text(self.alloc, &scene)
        } else {
            write_svg(self.alloc, &scene)
        };
        if sides.are_cut {
            self.rows.is_cut = true;
        }
        self.rows.outcome()?;
        Ok(page.into_octets()?)
    }

    // Returns the peer that has a number at the exchange.
    fn peer_of(&self, number: u16) -> Option<u16> {
        for (place, peer) in self.peers.iter().enumerate() {
            if peer.has(number) {
                return u16::try_from(place).ok();
            }
        }
        None
    }

    // Ends the runs so far: the next event has another row.
    fn end_runs(&mut self) {
        for run in self.runs.as_slice() {
            let local = match run.key.direction {
                Direction::In => self.pairs.local(run.key.peer, run.key.number),
                Direction::Out => Some(run.key.number),
            };
            self.rows.push(row_of(self.alloc, run, local));
        }
        self.runs.clear();
    }

    // Returns an arrow without text.
    fn arrow(&self, event: &DatagramEvent<'_>) -> Row {
        let mut row = Row::new(self.alloc, RowKind::Frame, event.moment);
        row.peer = Some(event.peer);
        row.direction = event.direction;
        row
    }

    // Adds a finished arrow. Sets its refusal, and whether its frame is a retransmission.
    fn push_arrow(&mut self, mut row: Row, event: &DatagramEvent<'_>) {
        if let Some(name) = event.refusal {
            row.refuse(name);
        }
        if row.is_resent {
            row.text.text(", sent again");
        }
        self.rows.push(row);
    }

    // Adds an arrow for a datagram that isn't a full frame.
    fn no_frame(&mut self, event: &DatagramEvent<'_>, what: &str) {
        self.end_runs();
        let mut row = self.arrow(event);
        row.text.text(what);
        row.text.text(", ");
        write_count(event.octets.len() as u64, "octet", "octets", &mut row.text);
        self.push_arrow(row, event);
    }

    // Adds an arrow for a full frame.
    fn full(&mut self, event: &DatagramEvent<'_>, frame: &Full<'_>) {
        self.end_runs();
        let mut row = self.arrow(event);
        row.is_resent = frame.retransmitted();
        row.local = self.local_of(event, frame);
        row.remote = match event.direction {
            Direction::In => Some(frame.source().get()),
            Direction::Out => Some(frame.destination().get()),
        };
        write_full(frame, &mut row.text);
        write_numbers(frame, &mut row.numbers);
        self.push_arrow(row, event);
    }

    // Returns the number of a full frame's leg at the exchange. A frame to the peer also shows the peer's number of that
    // leg.
    fn local_of(&mut self, event: &DatagramEvent<'_>, frame: &Full<'_>) -> Option<u16> {
        let source = frame.source().get();
        let destination = frame.destination().get();
        if event.direction == Direction::Out {
            if destination > 0 && !Message::of(frame).is_inval() {
                self.learn(event.peer, destination, source);
            }
            return Some(source);
        }
        if destination > 0 {
            return Some(destination);
        }
        self.pairs.local(event.peer, source)
    }

    // Learns that two numbers name one leg, and sets the local number of earlier rows that lack it.
    fn learn(&mut self, peer: u16, remote: u16, local: u16) {
        if self.pairs.local(peer, remote) == Some(local) {
            return;
        }
        if self.pairs.learn(peer, remote, local).is_err() {
            self.rows.is_cut = true;
        }
        for row in self.rows.list.iter_mut() {
            if row.awaits(peer, remote) {
                row.local = Some(local);
            }
        }
    }

    // Adds one frame with media. It has a separate arrow only if it is refused.
    fn media(
        &mut self,
        event: &DatagramEvent<'_>,
        kind: MediaKind,
        number: CallNumber,
        media: &[u8],
    ) {
        if event.refusal.is_some() {
            return self.no_frame(event, "media");
        }
        let key = RunKey {
            peer: event.peer,
            direction: event.direction,
            kind,
            number: number.get(),
        };
        let piece = MediaPiece {
            key,
            moment: event.moment,
            octets: media.len() as u64,
        };
        if self.runs.fold(piece).is_err() {
            self.rows.is_cut = true;
        }
    }

    // Adds the entries of a trunk frame.
    fn trunk(&mut self, event: &DatagramEvent<'_>, frame: &Trunk<'_>) {
        if event.refusal.is_some() {
            return self.no_frame(event, "trunk frame");
        }
        for (number, _, media) in frame.entries() {
            self.media(event, MediaKind::Trunk, number, media);
        }
    }
}
