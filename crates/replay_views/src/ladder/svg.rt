//! A ladder as SVG. Lengths are in pixels; a letter of a label is 8 wide at most.
use crate::ladder::legend::write_legend;
use crate::ladder::media_runs::Direction;
use crate::ladder::pieces::write_escaped;
use crate::ladder::row::{Row, Scene};
use crate::ladder::sides::{Side, Sides};
use crate::ladder::wrapping::split_line;
use plain_text::TextBuffer;
use std::alloc::Global;

// The place of the first lifeline, the distance between lifelines, and the letters of a label's line.
const MARGIN: u64 = 170;

const GAP: u64 = 420;

const LETTERS: usize = 50;
// The place at which the rows begin.
const TOP: u64 = 60;

const STYLE: &str =
    "text{fill:#222}.n,.t,.k{font-size:11px;fill:#555}.h{font-weight:bold;font-size:14px}\
.g{fill:#06c}.o{fill:#640}\
.v{stroke:#999}.f,.s,.x,.m{stroke:#222;fill:none;stroke-width:1.5}.s{stroke-dasharray:6 4}.x{stroke:#c00}\
.m{stroke:#888;stroke-width:3}\
.p{fill:#222}.px,.lx{fill:#c00}.pm{fill:#888}.d{fill:#06c}";

// The text behind the picture's size.
const HEAD: &str =
    " font-family=\"DejaVu Sans Mono, Menlo, Consolas, monospace\" font-size=\"13\">\n\
<title>Calls through the exchange</title>\n<style>";

// Returns the place of a lifeline, from 0 for the leftmost.
fn lifeline_x(place: usize) -> u64 {
    (place as u64).saturating_mul(GAP).saturating_add(MARGIN)
}

// Returns the place of the exchange's lifeline.
fn exchange_x(sides: &Sides) -> u64 {
    lifeline_x(sides.left_count())
}

// Returns the place of a shown peer's lifeline.
fn peer_x(sides: &Sides, place: usize) -> u64 {
    if place < sides.left_count() {
        lifeline_x(place)
    } else {
        lifeline_x(place.saturating_add(1))
    }
}

// Writes an attribute of the current element.
fn write_attribute(name: &str, value: &str, out: &mut TextBuffer) {
    out.text(" ");
    out.text(name);
    out.text("=\"");
    out.text(value);
    out.text("\"");
}

// Writes an attribute that is a length.
fn write_length(name: &str, value: u64, out: &mut TextBuffer) {
    out.text(" ");
    out.text(name);
    out.text("=\"");
    out.number(value);
    out.text("\"");
}

// Begins a text of a class, with its anchor.
fn begin_words(x: u64, y: u64, class: &str, anchor: &str, out: &mut TextBuffer) {
    out.text("<text");
    write_length("x", x, out);
    write_length("y", y, out);
    write_attribute("class", class, out);
    write_attribute("text-anchor", anchor, out);
    out.text(">");
}

// Writes a text of a class, with its anchor.
fn write_words(x: u64, y: u64, class: &str, anchor: &str, text: &[u8], out: &mut TextBuffer) {
    begin_words(x, y, class, anchor, out);
    write_escaped(text, out);
    out.text("</text>\n");
}

// Writes the moment of a row.
fn write_moment(moment: u64, y: u64, out: &mut TextBuffer) {
    begin_words(12, y, "t", "start", out);
    out.number(moment);
    out.text(" ms</text>\n");
}

// Writes a line of a class, between two points.
fn write_line(from: (u64, u64), to: (u64, u64), class: &str, out: &mut TextBuffer) {
    out.text("<line");
    write_length("x1", from.0, out);
    write_length("y1", from.1, out);
    write_length("x2", to.0, out);
    write_length("y2", to.1, out);
    write_attribute("class", class, out);
    out.text("/>\n");
}

// Writes an arrow, with its head.
fn write_arrow(row: &Row, from: u64, to: u64, y: u64, out: &mut TextBuffer) {
    let look = row.look();
    write_line((from, y), (to, y), look.line, out);
    out.labelled("<path d=\"M", to);
    out.labelled(" ", y);
    out.text(if from < to {
        "l-10 -5v10z\""
    } else {
        "l10 -5v10z\""
    });
    write_attribute("class", look.head, out);
    out.text("/>\n");
}

// Writes a label above its arrow, line by line. Returns the place of the next line.
fn write_label(label: &[u8], x: u64, top: u64, class: &str, out: &mut TextBuffer) -> u64 {
    let mut y = top;
    let mut rest = label;
    while !rest.is_empty() {
        let (line, after) = split_line(rest, LETTERS);
        y = y.saturating_add(17);
        write_words(x, y, class, "middle", line, out);
        rest = after;
    }
    y
}

// Writes a datagram between a shown peer and the exchange. Returns the place of the next row.
fn write_datagram(sides: &Sides, row: &Row, place: usize, top: u64, out: &mut TextBuffer) -> u64 {
    let exchange = exchange_x(sides);
    let peer = peer_x(sides, place);
    let middle = if peer < exchange {
        exchange.saturating_sub(GAP / 2)
    } else {
        exchange.saturating_add(GAP / 2)
    };
    let y = write_label(&row.text.octets, middle, top, row.look().label, out).saturating_add(7);
    let (from, to) = match row.direction {
        Direction::In => (peer, exchange),
        Direction::Out => (exchange, peer),
    };
    write_arrow(row, from, to, y, out);
    write_moment(row.moment, y.saturating_add(4), out);
    let below = y.saturating_add(14);
    write_words(middle, below, "n", "middle", &row.numbers.octets, out);
    below.saturating_add(6)
}

// Writes a stage, or an event of the script, next to the exchange's lifeline, on the side of its peer.
fn write_note(sides: &Sides, row: &Row, top: u64, out: &mut TextBuffer) -> u64 {
    let x = exchange_x(sides);
    let y = top.saturating_add(17);
    out.text("<circle");
    write_length("cx", x, out);
    write_length("cy", y.saturating_sub(4), out);
    out.text(" r=\"4\" class=\"d\"/>\n");
    let (x, anchor) = match sides.side(row.peer) {
        Some(Side::Left) => (x.saturating_sub(10), "end"),
        _ => (x.saturating_add(10), "start"),
    };
    write_words(x, y, row.note_class(), anchor, &row.text.octets, out);
    write_moment(row.moment, y, out);
    y.saturating_add(4)
}

// Writes the shown rows. Returns the place at which they end.
fn write_rows(scene: &Scene<'_>, out: &mut TextBuffer) -> u64 {
    let mut y = TOP;
    for row in scene.rows {
        if row.is_shown(scene.leg) {
            y = match scene.sides.place(row.peer) {
                Some(place) if row.is_arrow() => write_datagram(scene.sides, row, place, y, out),
                _ => write_note(scene.sides, row, y, out),
            };
        }
    }
    y
}

// Writes a lifeline under its name.
fn write_lifeline(x: u64, name: &[u8], bottom: u64, out: &mut TextBuffer) {
    write_words(x, 32, "h", "middle", name, out);
    write_line((x, 42), (x, bottom), "v", out);
}

// Writes the lifelines of the shown peers and of the exchange.
fn write_lifelines(scene: &Scene<'_>, bottom: u64, out: &mut TextBuffer) {
    for (place, peer) in scene.sides.peers().iter().enumerate() {
        if let Some(peer) = scene.peers.get(usize::from(*peer)) {
            write_lifeline(
                peer_x(scene.sides, place),
                peer.name.as_bytes(),
                bottom,
                out,
            );
        }
    }
    write_lifeline(exchange_x(scene.sides), b"exchange", bottom, out);
}

// Writes the head of the picture and its styles.
fn write_head(width: u64, height: u64, out: &mut TextBuffer) {
    out.text("<svg xmlns=\"http://www.w3.org/2000/svg\"");
    write_length("width", width, out);
    write_length("height", height, out);
    out.text(HEAD);
    out.text(STYLE);
    out.text("</style>\n<rect");
    write_length("width", width, out);
    write_length("height", height, out);
    out.text(" fill=\"#fff\"/>\n");
}

// Writes the legend of the shown rows, if it has an entry.
fn write_key(alloc: Global, scene: &Scene<'_>, y: u64, out: &mut TextBuffer) {
    let mut legend = TextBuffer::new(alloc);
    write_legend(scene.rows, scene.leg, &mut legend);
    if !legend.octets.is_empty() {
        write_words(12, y, "k", "start", &legend.octets, out);
    }
    out.is_cut |= legend.is_cut;
}

/// Returns the picture of the shown rows.
pub(crate) fn write_svg(alloc: Global, scene: &Scene<'_>) -> TextBuffer {
    let mut rows = TextBuffer::new(alloc);
    let bottom = write_rows(scene, &mut rows).saturating_add(10);
    let width = lifeline_x(scene.sides.peers().len()).saturating_add(MARGIN);
    let mut out = TextBuffer::new(alloc);
    write_head(width.max(760), bottom.saturating_add(34), &mut out);
    write_key(alloc, scene, bottom.saturating_add(22), &mut out);
    write_lifelines(scene, bottom, &mut out);
    out.put(&rows.octets);
    out.text("</svg>\n");
    out.is_cut |= rows.is_cut;
    out
}
