//! A ladder as plain text. A row has the moment in milliseconds, a peer's name at the end of its arrow, the exchange's
//! lifeline in the middle, and the frame's text.
ghost use Rattle.std.specs.Prelude.{◌<◌};

use crate::ladder::media_runs::Direction;
use crate::ladder::pieces::write_blanks;
use crate::ladder::row::{Row, Scene};
use crate::ladder::sides::{Peer, Side};
use crate::ladder::wrapping::split_line;
use plain_text::TextBuffer;
use std::alloc::Global;

// The greatest width of a line, the greatest width of a name, and the width of an arrow, in columns.
const COLUMNS: usize = 100;

const NAME: usize = 14;

const ARROW: usize = 8;

// The widths of the moments and of the names, in columns.
#[derive(Clone, Copy)]
struct Columns {
    moment: usize,
    name: usize,
}

impl Columns {
    // Returns the columns in front of the exchange's lifeline: a moment, a blank, a name, a blank, an arrow.
    fn margin(self) -> usize {
        self.moment
            .saturating_add(self.name)
            .saturating_add(2 + ARROW)
    }

    // Returns the columns behind it, up to a row's text: an arrow, a blank, a name, two blanks.
    fn gap(self) -> usize {
        self.name.saturating_add(3 + ARROW)
    }

    // Returns the columns that are left for a row's text.
    fn width(self) -> usize
        ensures { 0 < result }
    {
        COLUMNS
            .saturating_sub(self.margin())
            .saturating_sub(self.gap())
            .saturating_sub(1)
            .max(1)
    }
}

// Writes a moment at the right end of `columns` columns.
fn write_moment(moment: u64, columns: usize, out: &mut TextBuffer) {
    write_blanks(columns.saturating_sub(digits(moment)), out);
    out.number(moment);
}

// Returns the count of a number's decimal digits.
fn digits(number: u64) -> usize {
    match number.checked_ilog10() {
        Some(power) => power as usize + 1,
        None => 1,
    }
}

// Returns the name of a row's peer, cut to its columns.
fn name_of<'a>(peers: &'a [Peer], peer: Option<u16>) -> &'a [u8] {
    let Some(place) = peer else {
        return b"";
    };
    match peers.get(usize::from(place)) {
        Some(peer) => split_line(peer.name.as_bytes(), NAME).0,
        None => b"",
    }
}

// Writes an arrow that points to the right or to the left.
fn write_arrow(row: &Row, is_to_the_right: bool, out: &mut TextBuffer) {
    if !row.is_arrow() {
        write_blanks(ARROW, out);
    } else if is_to_the_right {
        out.text(row.look().to_the_right);
    } else {
        out.text(row.look().to_the_left);
    }
}

// Writes the exchange's lifeline, and on the side of a row's peer its arrow and its name.
fn write_sides(scene: &Scene<'_>, row: &Row, columns: Columns, out: &mut TextBuffer) {
    let side = scene.sides.side(row.peer);
    let name = name_of(scene.peers, row.peer);
    let blanks = columns.name.saturating_sub(name.len());
    let is_in = matches!(row.direction, Direction::In);
    match side {
        Some(Side::Left) => {
            write_blanks(blanks.saturating_add(1), out);
            out.put(name);
            out.text(" ");
            write_arrow(row, is_in, out);
        }
        _ => write_blanks(columns.name.saturating_add(2 + ARROW), out),
    }
    out.text("|");
    match side {
        Some(Side::Right) => {
            write_arrow(row, !is_in, out);
            out.text(" ");
            out.put(name);
            write_blanks(blanks, out);
        }
        _ => write_blanks(columns.name.saturating_add(1 + ARROW), out),
    }
    out.text("  ");
}

// Returns the whole text of a row.
fn label_of(alloc: Global, row: &Row) -> TextBuffer {
    let mut label = TextBuffer::new(alloc);
    label.put(&row.text.octets);
    if !row.numbers.octets.is_empty() {
        label.text(" (");
        label.put(&row.numbers.octets);
        label.text(")");
    }
    label
}

// Writes the rest of a label on further lines behind the exchange's lifeline.
fn write_more(label: &[u8], columns: Columns, out: &mut TextBuffer) {
    let mut rest = label;
    while !rest.is_empty() {
        let (line, after) = split_line(rest, columns.width());
        write_blanks(columns.margin(), out);
        out.text("|");
        write_blanks(columns.gap(), out);
        out.put(line);
        out.text("\n");
        rest = after;
    }
}

// Writes a row.
fn write_row(alloc: Global, scene: &Scene<'_>, row: &Row, columns: Columns, out: &mut TextBuffer) {
    write_moment(row.moment, columns.moment, out);
    write_sides(scene, row, columns, out);
    let label = label_of(alloc, row);
    let (line, rest) = split_line(&label.octets, columns.width());
    out.put(line);
    out.text("\n");
    write_more(rest, columns, out);
    out.is_cut |= label.is_cut;
}

// Returns the widths. That of the moments is the last one's, and at least two. That of the names is the longest name's of a
// shown peer.
fn columns_of(scene: &Scene<'_>) -> Columns {
    let mut columns = Columns { moment: 2, name: 0 };
    if let Some(row) = scene.rows.last() {
        columns.moment = digits(row.moment).max(2);
    }
    for peer in scene.sides.peers() {
        columns.name = name_of(scene.peers, Some(*peer)).len().max(columns.name);
    }
    columns
}

/// Returns the shown rows, each on one line or more.
pub(crate) fn write_text(alloc: Global, scene: &Scene<'_>) -> TextBuffer {
    let mut out = TextBuffer::new(alloc);
    let columns = columns_of(scene);
    write_blanks(columns.moment.saturating_sub(2), &mut out);
    out.text("ms");
    write_blanks(columns.name.saturating_add(ARROW - 2), &mut out);
    out.text("exchange\n");
    for row in scene.rows {
        if row.is_shown(scene.leg) {
            write_row(alloc, scene, row, columns, &mut out);
        }
    }
    out
}
