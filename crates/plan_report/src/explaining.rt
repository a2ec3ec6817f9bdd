//! Explains a plan.
use crate::estimates::write_estimates;
use crate::unknown_keys::warn_of_unknown_keys;
use crate::values::write_values;
use crate::warnings::write_warnings;
use peer_plan::Plan;
use plain_text::TextBuffer;
use std::alloc::{AllocError, Global};
use std::io::Write;

// Returns the report of a plan that was read from this text.
fn report_of(alloc: Global, plan: &Plan, text: &[u8]) -> Result<Vec<u8>, AllocError> {
    let Ok(table) = toml::table_from_slice(alloc, text) else {
        // The text was just parsed without a fault, so this one is a want of memory.
        return Err(AllocError);
    };
    let mut report = TextBuffer::new(alloc);
    write_values(plan, &table, &mut report);
    write_estimates(plan, &mut report);
    warn_of_unknown_keys(&table, &mut report);
    write_warnings(plan, &mut report);
    report.into_octets()
}

/// Writes the meaning of a plan: each value, whether it was given or is a default, and the estimates. A line that begins
/// with `warning:` names each setting that may not be intended. Returns the status 0. A fault is written as `check` writes
/// it, and the status is 1; it is 1 too if the output can't be written. No secret is written.
pub fn explain<W: Write>(alloc: Global, text: &[u8], writer: &mut W) -> u8 {
    let plan = match Plan::read(alloc, text) {
        Ok(plan) => plan,
        Err(fault) => {
            let _ = writeln!(writer, "refused {fault}");
            return 1;
        }
    };
    match report_of(alloc, &plan, text) {
        Ok(report) => u8::from(writer.write_all(&report).is_err()),
        Err(_) => {
            let _ = writer.write_all(b"refused Memory\n");
            1
        }
    }
}
