//! The rows of a ladder, from the first on downwards.
ghost use Rattle.std.specs.Prelude.{◌≡◌};

use crate::ladder::media_runs::{Direction, MediaKind, MediaRun};
use crate::ladder::sides::{Peer, Sides};
use crate::ladder::words::write_count;
use plain_text::TextBuffer;
use std::alloc::Global;

/// The content of a row.
#[derive(Clone, Copy, PartialEq, Eq)]
pub(crate) enum RowKind {
    /// An arrow between a peer and the exchange: a datagram.
    Frame,
    /// An arrow: frames with media, folded.
    Media,
    /// The new stage of a leg.
    Stage,
    /// An event of the script, or its refusal.
    Order,
}

/// The look of an arrow: in SVG the classes of its line, of its head, and of its label; in plain text the arrow to the
/// right, and to the left.
#[derive(Clone, Copy)]
pub(crate) struct Look {
    pub line: &'static str,
    pub head: &'static str,
    pub label: &'static str,
    pub to_the_right: &'static str,
    pub to_the_left: &'static str,
}

const REFUSED: Look = Look {
    line: "x",
    head: "px",
    label: "lx",
    to_the_right: "-------x",
    to_the_left: "x-------",
};

const MEDIA: Look = Look {
    line: "m",
    head: "pm",
    label: "l",
    to_the_right: "=======>",
    to_the_left: "<=======",
};

const RESENT: Look = Look {
    line: "s",
    head: "p",
    label: "l",
    to_the_right: "- - - ->",
    to_the_left: "<- - - -",
};

const SENT: Look = Look {
    line: "f",
    head: "p",
    label: "l",
    to_the_right: "------->",
    to_the_left: "<-------",
};

/// A row.
#[derive(Drop)]
pub(crate) struct Row {
    pub kind: RowKind,
    /// The place of the peer; none for an event at the exchange alone.
    pub peer: Option<u16>,
    pub direction: Direction,
    /// In milliseconds.
    pub moment: u64,
    /// The numbers of its leg at the exchange, and at the peer, if they are known.
    pub local: Option<u16>,
    pub remote: Option<u16>,
    pub is_resent: bool,
    pub is_refused: bool,
    /// Its text, and the frame's numbers, in ASCII.
    pub text: TextBuffer,
    pub numbers: TextBuffer,
}

/// The parts of a drawing: the peers, their places, and the rows; of all legs, or of the leg of one local number.
#[derive(Clone, Copy)]
pub(crate) struct Scene<'a> {
    pub peers: &'a [Peer],
    pub sides: &'a Sides,
    pub rows: &'a [Row],
    pub leg: Option<u16>,
}

impl Row {
    ghost use Rattle.replay_views.specs.Legend.{is_shown};

    /// Returns a row without text.
    pub(crate) fn new(alloc: Global, kind: RowKind, moment: u64) -> Row {
        Row {
            kind,
            peer: None,
            direction: Direction::In,
            moment,
            local: None,
            remote: None,
            is_resent: false,
            is_refused: false,
            text: TextBuffer::new(alloc),
            numbers: TextBuffer::new(alloc),
        }
    }

    /// Returns whether it is shown in a ladder of one leg, or of all.
    pub(crate) fn is_shown(&self, leg: Option<u16>) -> bool
        ensures { result ≡ is_shown leg self.now }
    {
        match (leg, self.local) {
            (Some(number), Some(local)) => number == local,
            (Some(_), None) => false,
            (None, _) => true,
        }
    }

    /// Returns whether it is an arrow.
    pub(crate) fn is_arrow(&self) -> bool {
        matches!(self.kind, RowKind::Frame | RowKind::Media)
    }

    /// Returns whether it is a frame of the leg with this number at the peer, and its number at the exchange isn't known
    /// yet.
    pub(crate) fn awaits(&self, peer: u16, remote: u16) -> bool {
        self.local.is_none()
            && !self.is_refused
            && self.peer == Some(peer)
            && self.remote == Some(remote)
    }

    /// Adds a refusal to its text.
    pub(crate) fn refuse(&mut self, name: &str) {
        self.is_refused = true;
        self.text.text(": refused ");
        self.text.text(name);
    }

    /// Returns the look of an arrow. (A row that isn't an arrow isn't drawn with it.)
    pub(crate) fn look(&self) -> &'static Look {
        if self.is_refused {
            &REFUSED
        } else if self.kind == RowKind::Media {
            &MEDIA
        } else if self.is_resent {
            &RESENT
        } else {
            &SENT
        }
    }

    /// Returns the class of its text in SVG, if it is a note next to the exchange's lifeline.
    pub(crate) fn note_class(&self) -> &'static str {
        if self.is_refused {
            "lx"
        } else if self.kind == RowKind::Stage {
            "g"
        } else {
            "o"
        }
    }
}

// Returns the names of one and of several frames of a run.
fn names_of(kind: MediaKind) -> (&'static str, &'static str) {
    match kind {
        MediaKind::Mini => ("mini frame", "mini frames"),
        MediaKind::Trunk => ("trunk entry", "trunk entries"),
        MediaKind::Video => ("video frame", "video frames"),
    }
}

/// Returns the row of a run whose leg has this number at the exchange, with its frames, its octets and its last moment.
pub(crate) fn row_of(alloc: Global, run: &MediaRun, local: Option<u16>) -> Row {
    let mut row = Row::new(alloc, RowKind::Media, run.first);
    row.peer = Some(run.key.peer);
    row.direction = run.key.direction;
    row.local = local;
    let (one, more) = names_of(run.key.kind);
    write_count(run.frames, one, more, &mut row.text);
    row.text.text(", ");
    write_count(run.octets, "octet", "octets", &mut row.text);
    if run.last > run.first {
        row.text.labelled(", until ", run.last);
        row.text.text(" ms");
    }
    row.numbers.labelled("call ", u64::from(run.key.number));
    row
}
