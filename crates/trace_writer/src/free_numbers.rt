//! The order in which free numbers are given out, and the serial of the next leg, as the lines of a script say them.
use crate::trace::Trace;
use peer_plan::{PeerId, Plan};
use plain_text::TextBuffer;
use std::alloc::{AllocError, Global};

// Returns the numbers of a peer that has no leg, each with the moment at which it was last freed. They are in the order in
// which they are given out: first those that never had a leg.
fn free_numbers(
    alloc: Global,
    trace: &Trace,
    first: u16,
    count: u16,
) -> Result<Vec<(u64, u16)>, AllocError> {
    let mut numbers = Vec::new(alloc);
    for place in 0..count {
        let number = first.saturating_add(place);
        if numbers.push((trace.freed(number), number)).is_err() {
            return Err(AllocError);
        }
    }
    numbers.sort()?;
    Ok(numbers)
}

// Writes the numbers of this list, consecutive ones as `first-last`.
fn write_numbers(lines: &mut TextBuffer, numbers: &[(u64, u16)]) {
    let mut run: Option<(u16, u16)> = None;
    for &(_, number) in numbers {
        run = match run {
            Some((first, last)) if last.wrapping_add(1) == number => Some((first, number)),
            Some((first, last)) => {
                write_run(lines, first, last);
                lines.text(",");
                Some((number, number))
            }
            None => Some((number, number)),
        };
    }
    if let Some((first, last)) = run {
        write_run(lines, first, last);
    }
}

fn write_run(lines: &mut TextBuffer, first: u16, last: u16) {
    lines.number(u64::from(first));
    if first != last {
        lines.text("-");
        lines.number(u64::from(last));
    }
}

/// Returns the line that sets whether all peers drain, or none.
pub(crate) fn drain_line(drains: bool) -> &'static str {
    match drains {
        true => "drain\n",
        false => "drain off\n",
    }
}

// Writes the order of the free numbers of each peer.
fn write_free(lines: &mut TextBuffer, alloc: Global, trace: &Trace, plan: &Plan) {
    for place in 0..plan.peer_count() {
        let peer = PeerId::new(place);
        let range = plan.range(peer);
        lines.text("free ");
        lines.text(plan.name(peer));
        lines.text(" ");
        match free_numbers(alloc, trace, range.first, range.count) {
            Ok(numbers) => write_numbers(lines, &numbers),
            Err(_) => lines.is_cut = true,
        }
        lines.text("\n");
    }
}

/// Returns the lines with which a file begins while no call is up. If a number was given back before, they have the order of each
/// peer's free numbers. They have the serial of the next leg, and say that peers drain, if they do.
pub(crate) fn orders_of(alloc: Global, trace: &Trace, plan: &Plan, serial: u64) -> TextBuffer {
    let mut lines = TextBuffer::new(alloc);
    if trace.has_freed() {
        write_free(&mut lines, alloc, trace, plan);
    }
    lines.text("serial ");
    lines.number(serial);
    lines.text("\n");
    if trace.drains() {
        lines.text(drain_line(true));
    }
    lines
}
