//! Runs of octets in the text of a TOML document.
ghost use Rattle.std.specs.Prelude.{◌≤◌, length};

use toml_parser::bytes::{byte_at, is_ws};

// The surroundings of an octet. `Text` and `LongText` have the quote that ends them.
#[derive(Clone, Copy)]
enum Mode {
    Bare,
    Comment,
    Text(u8),
    // Between three quotes.
    LongText(u8),
}

// The state of a scan: the surroundings of the next octet, the open brackets, and the number of skipped octets.
#[derive(Clone, Copy)]
struct Scan {
    mode: Mode,
    depth: u64,
    skip: u8,
}

/// The octets at which a scan stops.
#[derive(Clone, Copy)]
pub(crate) enum Stop {
    /// `=`, behind a key.
    Equals,
    /// `]`, behind the key of a header.
    Bracket,
    /// The end of an element of a list, or of a member of a table in one line.
    Element,
    /// The end of a line, or a comment.
    LineEnd,
}

fn is_stop(stop: Stop, octet: u8) -> bool {
    match stop {
        Stop::Equals => octet == b'=',
        Stop::Bracket => octet == b']',
        Stop::Element => octet == b',' || octet == b']' || octet == b'}',
        Stop::LineEnd => octet == b'\n' || octet == b'#',
    }
}

// Returns the scan in another mode, which skips `skip` octets.
fn with_mode(scan: Scan, mode: Mode, skip: u8) -> Scan {
    Scan { mode, skip, ..scan }
}

// Returns whether two more quotes follow the first octet.
fn has_three(rest: &[u8], quote: u8) -> bool {
    byte_at(rest, 1) == quote && byte_at(rest, 2) == quote
}

// Returns the scan behind an octet outside texts and comments.
fn behind_bare(scan: Scan, rest: &[u8], octet: u8) -> Scan {
    match octet {
        b'"' | b'\'' => {
            if has_three(rest, octet) {
                with_mode(scan, Mode::LongText(octet), 2)
            } else {
                with_mode(scan, Mode::Text(octet), 0)
            }
        }
        b'#' => with_mode(scan, Mode::Comment, 0),
        b'[' | b'{' => Scan {
            depth: scan.depth.saturating_add(1),
            ..scan
        },
        b']' | b'}' => Scan {
            depth: scan.depth.saturating_sub(1),
            ..scan
        },
        _ => scan,
    }
}

// Returns the scan behind an octet of a text.
fn behind_text(scan: Scan, rest: &[u8], octet: u8, quote: u8, is_long: bool) -> Scan {
    if octet == b'\\' && quote == b'"' {
        return with_mode(scan, scan.mode, 1);
    }
    if octet != quote {
        return scan;
    }
    if !is_long {
        return with_mode(scan, Mode::Bare, 0);
    }
    // (the last three of four or five quotes end it)
    if has_three(rest, quote) && byte_at(rest, 3) != quote {
        return with_mode(scan, Mode::Bare, 2);
    }
    scan
}

// Returns the scan behind the first octet of the rest.
fn behind(scan: Scan, rest: &[u8]) -> Scan {
    if scan.skip > 0 {
        return Scan {
            skip: scan.skip - 1,
            ..scan
        };
    }
    let octet = byte_at(rest, 0);
    match scan.mode {
        Mode::Bare => behind_bare(scan, rest, octet),
        Mode::Comment => {
            if octet == b'\n' {
                with_mode(scan, Mode::Bare, 0)
            } else {
                scan
            }
        }
        Mode::Text(quote) => behind_text(scan, rest, octet, quote, false),
        Mode::LongText(quote) => behind_text(scan, rest, octet, quote, true),
    }
}

// Returns whether a scan may stop: outside texts and comments, with no bracket open.
fn is_free(scan: Scan) -> bool {
    matches!(scan.mode, Mode::Bare) && scan.depth == 0 && scan.skip == 0
}

/// Returns the place of the first octet from here on at which the scan stops, outside texts, comments and brackets; the end of
/// the
/// text if there is none.
pub(crate) fn stop_at(text: &[u8], from: usize, stop: Stop) -> usize
    requires { from ≤ length text.now }
    ensures from { from ≤ result }
    ensures within { result ≤ length text.now }
{
    let mut scan = Scan {
        mode: Mode::Bare,
        depth: 0,
        skip: 0,
    };
    for at in from..text.len() {
        let rest = &text[at..];
        if is_free(scan) && is_stop(stop, byte_at(rest, 0)) {
            return at;
        }
        scan = behind(scan, rest);
    }
    text.len()
}

/// Returns the place of the first octet from here on that is no blank, no end of a line, and in no comment.
pub(crate) fn skip_blanks(text: &[u8], from: usize) -> usize
    requires { from ≤ length text.now }
    ensures from { from ≤ result }
    ensures within { result ≤ length text.now }
{
    let mut is_comment = false;
    for at in from..text.len() {
        let octet = text[at];
        if octet == b'\n' {
            is_comment = false;
        } else if octet == b'#' {
            is_comment = true;
        } else if !is_comment && !is_ws(octet) && octet != b'\r' {
            return at;
        }
    }
    text.len()
}

/// Returns the octets between two places, without blanks at both ends; none if these aren't places of the text.
pub(crate) fn trimmed(text: &[u8], from: usize, to: usize) -> &[u8] {
    match text.get(from..to) {
        Some(octets) => octets.trim_ascii(),
        None => &[],
    }
}
