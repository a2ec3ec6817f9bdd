//! The report of a plan's faults.
ghost use Rattle.std.specs.Prelude.{◌≡◌, ◌≤◌, ◌<◌, ◌+◌, length};
ghost use Rattle.plan_faults.specs.Lines.{Adds, lines_of};

use crate::fault::Fault;
use crate::findings::{Findings, MOST_OTHERS};
use crate::judging::Judge;
use crate::lines::{begin_line, line_at, write_shown};
use crate::report::{Counts, push_line};
use crate::syntax::write_syntax;
use crate::tables::{items_of, version_of};
use crate::walk::Walk;
use crate::ways::ways_of;
use crate::words::{Source, write_fault};
use peer_plan::Section;
use plain_text::TextBuffer;
use std::alloc::Global;
use toml::Table;

// Returns the faults of a text that TOML accepts.
fn find<'a>(alloc: Global, root: &Table, workers: u64, text: &'a [u8]) -> Findings<'a> {
    let version = version_of(root);
    let ways = ways_of(alloc, root, version);
    let judge = Judge {
        root,
        version,
        workers,
        ways: &ways,
    };
    let mut findings = Findings::new(alloc);
    judge.judge_plan(&mut findings);
    let mut walk = Walk::new(alloc, text);
    for _ in 0..text.len().saturating_add(1) {
        match walk.next() {
            Some(entry) => judge.judge(entry, &mut findings),
            None => return findings,
        }
    }
    findings
}

fn write_line(
    source: Source<'_>,
    path: &str,
    text: &[u8],
    fault: &Fault<'_>,
    report: &mut TextBuffer,
)
    ensures { Adds 1 report.old report.new }
{
    let mut line = TextBuffer::new(source.alloc);
    begin_line(path, line_at(text, fault.at), &mut line);
    write_fault(source, fault, &mut line);
    push_line(&line, report);
}

fn write_others(
    source: Source<'_>,
    path: &str,
    text: &[u8],
    others: &[Fault<'_>],
    report: &mut TextBuffer,
)
    ensures { Adds (length others.now) report.old report.new }
{
    for fault in others {
        write_line(source, path, text, fault, report);
    }
}

/// Writes the number of faults or warnings beyond those that are written.
pub(crate) fn write_more(alloc: Global, path: &str, more: u64, what: &str, report: &mut TextBuffer)
    ensures { Adds 1 report.old report.new }
{
    let mut line = TextBuffer::new(alloc);
    write_shown(path.as_bytes(), &mut line);
    line.labelled(": ", more);
    line.text(what);
    push_line(&line, report);
}

// Writes the first fault, the others that are kept, and the number of those beyond them.
fn write_findings(
    source: Source<'_>,
    path: &str,
    text: &[u8],
    findings: &Findings<'_>,
    report: &mut TextBuffer,
) -> Counts
    ensures most { result.written ≤ 20 }
    ensures more { 0 < result.more → result.written ≡ 20 }
    ensures lines { Adds (lines_of result) report.old report.new }
{
    let Some(first) = &findings.first else {
        return Counts {
            written: 0,
            more: 0,
        };
    };
    write_line(source, path, text, first, report);
    let others = findings.others();
    write_others(source, path, text, others, report);
    let written = others.len() as u64 + 1;
    if others.len() < MOST_OTHERS || findings.more == 0 {
        return Counts { written, more: 0 };
    }
    write_more(source.alloc, path, findings.more, " further faults", report);
    Counts {
        written,
        more: findings.more,
    }
}

/// Writes the faults of a plan that `Plan::read` refuses, a line each. The first is the one that `Plan::read` names. The
/// others follow in the order of the text, 20 in all, and then the number of those beyond these. No value of a secret is
/// written.
///
/// Each line begins with the path and the number of the line, from 1. A text that isn't TOML has one fault. If memory runs out,
/// fewer names are offered as the ones that were meant.
pub fn write_faults(alloc: Global, path: &str, text: &[u8], report: &mut TextBuffer) -> Counts
    ensures most { result.written ≤ 20 }
    ensures more { 0 < result.more → result.written ≡ 20 }
    ensures lines { Adds (lines_of result) report.old report.new }
{
    match toml::table_from_slice(alloc, text) {
        Ok(root) => {
            let workers = items_of(&root, Section::Worker).len().clamp(1, 64) as u64;
            let source = Source {
                alloc,
                root: &root,
                workers,
            };
            let findings = find(alloc, &root, workers, text);
            write_findings(source, path, text, &findings, report)
        }
        Err(error) => write_syntax(alloc, path, text, &error, report),
    }
}
