//! The commands on plans: `check`, `explain` and `plan`. Faults and warnings go to standard error.
use crate::is_memory;
use exchange_commands::check;
use plain_text::TextBuffer;
use plan_faults::{SAMPLE, Upgrade, write_faults, write_upgraded, write_warnings};
use plan_report::explain;
use std::alloc::Global;
use std::fs::File;
use std::io::{ErrorKind, Read};
use std::os::unix::fs::PermissionsExt;
use std::rt::Files;
use std::{fs, io};

// The most octets that are read from a pipe or a device, which may have no end.
const MOST_PIPED: usize = 0x400_0000;

// Reads a file to its end, or to an octet 0, which no plan has. Returns `FileTooLarge` if it has more than `most` octets.
fn read_text<F: Read>(file: &mut F, most: usize, octets: &mut Vec<u8>) -> io::Result<()> {
    let mut piece = [0u8; 16384];
    for _ in 0..u64::MAX {
        let count = match file.read(&mut piece) {
            Ok(count) => count,
            Err(error) if error.kind() == ErrorKind::Interrupted => continue,
            Err(error) => return Err(error),
        };
        let read = &piece[..count];
        octets.extend_from_slice(read)?;
        if count == 0 || read.contains(&0) {
            return Ok(());
        }
        if octets.len() > most {
            return Err(io::Error::from(ErrorKind::FileTooLarge));
        }
    }
    Ok(())
}

// Returns the most octets that are read from a file.
fn most_read<R: Files>(rt: &R, path: &str) -> usize {
    match fs::metadata(rt, path) {
        Ok(metadata) if metadata.is_file() => usize::MAX,
        _ => MOST_PIPED,
    }
}

// Returns the octets of a plan's file, up to the first octet 0.
fn text_of<R: Files>(rt: &R, alloc: Global, path: &str) -> io::Result<Vec<u8>> {
    let most = most_read(rt, path);
    let mut file = fs::open(rt, path)?;
    let mut octets = Vec::new(alloc);
    read_text(&mut file, most, &mut octets)?;
    Ok(octets)
}

// Prints why a file can't be read.
fn print_file_error<R: Eprint>(rt: &R, path: &str, error: &io::Error) {
    let why = match error.kind() {
        ErrorKind::IsADirectory => "it is a folder",
        ErrorKind::NotFound => "there is no such file",
        ErrorKind::PermissionDenied => "this user may not read it",
        ErrorKind::OutOfMemory => "memory ran out",
        ErrorKind::FileTooLarge =>
            "a pipe or a device gives more than 64 MiB; write the plan to a file",
        _ => "it can't be read",
    };
    let _ = eprintln!(rt; "{path}: {why}");
}

/// Returns the octets of a plan's file. If it can't be read, prints the refusal and why.
pub(crate) fn octets_of_plan<R: Files + Print + Eprint>(
    rt: &R,
    alloc: Global,
    path: &str,
) -> Option<Vec<u8>> {
    match text_of(rt, alloc, path) {
        Ok(octets) => Some(octets),
        Err(error) => {
            let _ = if is_memory(&error) {
                println!(rt; "refused Memory")
            } else {
                println!(rt; "refused File")
            };
            print_file_error(rt, path, &error);
            None
        }
    }
}

// Prints a report, which is ASCII, to standard error.
fn print_report<R: Eprint>(rt: &R, report: &TextBuffer) {
    if let Ok(text) = std::str::from_utf8(&report.octets) {
        let _ = eprint!(rt; "{text}");
    }
}

/// Prints the faults of a plan to standard error; nothing for a right one.
pub(crate) fn print_faults<R: Eprint>(rt: &R, alloc: Global, path: &str, plan: &[u8]) {
    let mut report = TextBuffer::new(alloc);
    write_faults(alloc, path, plan, &mut report);
    print_report(rt, &report);
}

// Returns whether every user of the machine may read a file.
fn is_open_to_others<R: Files>(rt: &R, path: &str) -> bool {
    match fs::metadata(rt, path) {
        Ok(metadata) => metadata.is_file() && metadata.permissions().mode() & 0o004 != 0,
        Err(_) => false,
    }
}

// Prints the warnings of a right plan, or the faults of another, to standard error.
fn print_warnings_or_faults<R: Files + Eprint>(
    rt: &R,
    alloc: Global,
    path: &str,
    plan: &[u8],
    status: u8,
) -> u8 {
    if status == 0 {
        let mut report = TextBuffer::new(alloc);
        write_warnings(alloc, path, plan, is_open_to_others(rt, path), &mut report);
        print_report(rt, &report);
    } else {
        print_faults(rt, alloc, path, plan);
    }
    status
}

/// Checks a plan's file.
pub(crate) fn check_file<R: Files + Print + Eprint>(rt: &R, alloc: Global, path: &str) -> u8 {
    match octets_of_plan(rt, alloc, path) {
        Some(plan) => {
            let status = check(alloc, &plan, &mut io::writer(rt));
            print_warnings_or_faults(rt, alloc, path, &plan, status)
        }
        None => 1,
    }
}

/// Explains a plan's file.
pub(crate) fn explain_file<R: Files + Print + Eprint>(rt: &R, alloc: Global, path: &str) -> u8 {
    match octets_of_plan(rt, alloc, path) {
        Some(plan) => {
            let status = explain(alloc, &plan, &mut io::writer(rt));
            print_warnings_or_faults(rt, alloc, path, &plan, status)
        }
        None => 1,
    }
}

/// Prints a plan to begin with.
pub(crate) fn print_sample<R: Print>(rt: &R) -> u8 {
    u8::from(print!(rt; "{SAMPLE}").is_err())
}

// Prints the outcome of an upgrade.
fn print_upgraded<R: Print + Eprint>(
    rt: &R,
    alloc: Global,
    path: &str,
    plan: &[u8],
    written: &TextBuffer,
    outcome: Upgrade,
) -> u8 {
    match outcome {
        Upgrade::Done => u8::from(io::Write::write_all(
            &mut io::writer(rt),
            &written.octets,
        ).is_err()),
        Upgrade::Refused => {
            let status = check(alloc, plan, &mut io::writer(rt));
            print_faults(rt, alloc, path, plan);
            status
        }
        Upgrade::InBrackets => {
            let _ = eprintln!(rt;
                "{path}: a list in brackets has a key that is skipped; take it out first"
            );
            1
        }
        Upgrade::Memory => {
            let _ = println!(rt; "refused Memory");
            1
        }
    }
}

/// Prints a plan of an older version as one of the newest.
pub(crate) fn upgrade_file<R: Files + Print + Eprint>(rt: &R, alloc: Global, path: &str) -> u8 {
    match octets_of_plan(rt, alloc, path) {
        Some(plan) => {
            let mut written = TextBuffer::new(alloc);
            let outcome = write_upgraded(alloc, &plan, &mut written);
            print_upgraded(rt, alloc, path, &plan, &written, outcome)
        }
        None => 1,
    }
}
