//! The lines of a report.
ghost use Rattle.std.specs.Prelude.{◌≡◌, false, true};
ghost use Rattle.plan_faults.specs.Lines.{Adds, is_shown};

use plain_text::TextBuffer;

/// The number of faults or warnings in a report, a line each, and the number of those that were only counted.
#[derive(Clone, Copy, PartialEq, Eq)]
pub struct Counts {
    pub written: u64,
    pub more: u64,
}

// Returns an octet as a line shows it.
fn line_octet(octet: u8) -> u8
    ensures shown { is_shown result ≡ true }
{
    if 0x20 <= octet && octet <= 0x7e {
        octet
    } else {
        b'?'
    }
}

/// Adds a line to a report, with `?` for each octet that isn't 0x20 ..= 0x7e. If the line is cut, the report is.
pub(crate) fn push_line(line: &TextBuffer, report: &mut TextBuffer)
    ensures lines { Adds 1 report.old report.new }
    ensures whole { report.new.is_cut ≡ false → line.now.is_cut ≡ false }
{
    for octet in &line.octets {
        report.put(&[line_octet(*octet)]);
    }
    report.put(b"\n");
    if line.is_cut {
        report.is_cut = true;
    }
}
