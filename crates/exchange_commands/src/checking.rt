//! The check of a plan.
ghost use Rattle.std.specs.Prelude.{◌≡◌, ◌≤◌, IfOk, IsOk, OnOk};
ghost use Rattle.std.specs.Io.KnownBytes.{Appends};
ghost use Rattle.exchange_commands.specs.Printed.{plan_line};
ghost use Rattle.peer_plan.specs.Reading.{plan_of};

use peer_plan::Plan;
use std::alloc::Global;
use std::io;
use std::io::Write;

// Writes the counts of peers, routes and numbers of a plan.
fn write_counts<W: Write>(plan: &Plan, writer: &mut W) -> io::Result<()>
    ensures { OnOk result (Appends (W.contents writer.old) (W.contents writer.new) (plan_line plan.now)) }
{
    writeln!(
        writer,
        "ok {} {} {}",
        plan.peer_count(),
        plan.route_count(),
        plan.number_count()
    )
}

/// Writes the numbers of a plan's peers, routes and call numbers, `ok <peers> <routes> <numbers>`, status 0, or its first
/// fault, `refused <fault>`, status 1. A fault of the writer is status 1.
pub fn check<W: Write>(alloc: Global, plan: &[u8], writer: &mut W) -> u8
    ensures status { result ≤ 1 }
    ensures valid { result ≡ 0 → IsOk (plan_of plan.now) }
    ensures line { result ≡ 0 →
        IfOk (plan_of plan.now) (λ plan. Appends (W.contents writer.old) (W.contents writer.new) (plan_line plan)) }
{
    let is_written = match Plan::read(alloc, plan) {
        Ok(plan) => write_counts(&plan, writer).is_ok(),
        Err(fault) => {
            let _ = writeln!(writer, "refused {fault}");
            false
        }
    };
    if is_written { 0 } else { 1 }
}
