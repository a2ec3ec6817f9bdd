//! A file to which lines are appended. It is checked, opened again and written to as often as needed, whatever fails.
ghost use Rattle.std.specs.Prelude.{◌≡◌, None, Some, IfOk, OnOk, OnErr, is_some, IsFalse, length};
ghost use Rattle.call_files.specs.Lines.{followed_by, rest_of, row_octets, with_lines, whole, begun};
ghost use Rattle.call_files.specs.Logs.{IsBegun, IsUnopened, IsFaced};

use crate::fault::Fault;
use crate::line::Line;
use crate::row_file::{Beginning, RowFile, Whereabouts};
use std::marker::Model;

// The time after which an idle file is checked, in milliseconds.
const IDLE_MS: u64 = 3000;

// The time after which a file that couldn't be opened is tried again, in milliseconds.
const RETRY_MS: u64 = 1000;

// The time for which octets may be written and not synced, in milliseconds. The round that wrote them isn't counted.
const SYNC_MS: u64 = 900;

/// The trouble of a file.
#[derive(Clone, Copy, Debug, PartialEq, Eq)]
pub enum Trouble {
    /// It can't be opened.
    Open(Fault),
    /// It can't be written to.
    Write(Fault),
    /// Its last octets couldn't be synced to the disk.
    Sync(Fault),
}

/// A file, the line that is being written to it, and its trouble.
///
/// The header is written before the line if the file was empty, and the end of a line if its last one was cut. Moments are
/// in milliseconds. Contracts see the file's content, if it is known, and the lines: the end of a line, the header, and the
/// row that is being written, if there is one.
#[derive(Drop)]
pub struct Appender<F: RowFile + Drop> {
    file: F,
    is_open: bool,
    line_end: Line,
    header: Line,
    row: Option<Line>,
    // The moment at which the file was last checked or tried.
    looked: u64,
    // The moment since which octets may be written but not synced.
    unsynced: Option<u64>,
    trouble: Option<Trouble>,
    sync_fault: Option<Fault>,
}

// Writes the rest of a line. The file's content followed by the rest of the line stays the same, however the write fails:
// no octet is left out or written twice.
fn write_line<F: RowFile>(file: &mut F, line: &mut Line) -> Result<(), Fault>
    ensures whole { OnOk result (line.new.written ≡ length line.new.octets) }
    ensures octets { line.new.octets ≡ line.old.octets }
    ensures same { followed_by (rest_of line.new) (F.contents file.new) ≡ followed_by (rest_of line.old) (F.contents file.old) }
{
    for _ in 0..u64::MAX {
        if line.is_whole() {
            return Ok(());
        }
        let count = file.append(line.rest())?;
        if count == 0 {
            break;
        }
        line.wrote(count);
    }
    Err(Fault { code: None })
}

// Writes the pending lines, each to its end before the next. Returns whether the last of them was a row.
fn write_lines<F: RowFile>(
    file: &mut F,
    line_end: &mut Line,
    header: &mut Line,
    row: &mut Option<Line>,
) -> Result<bool, Fault>
    ensures same { with_lines line_end.new header.new row.new (F.contents file.new) ≡
        with_lines line_end.old header.old row.old (F.contents file.old) }
    ensures done { IfOk result (λ is_row. (is_row ≡ is_some row.old) × (row.new ≡ None)) }
    ensures kept { OnErr result (row_octets row.new ≡ row_octets row.old) }
{
    write_line(file, line_end)?;
    write_line(file, header)?;
    let Some(line) = row else {
        return Ok(false);
    };
    write_line(file, line)?;
    *row = None;
    Ok(true)
}

impl<F: RowFile + Drop> Model for Appender<F> {
    ghost use Rattle.call_files.specs.Lines.{FileView};

    ghost Value = { FileView };

    ghost view = { λ appender. record {
      contents = F.contents appender.file;
      line_end = appender.line_end;
      header = appender.header;
      row = appender.row;
    } };
}

impl<F: RowFile + Drop> Appender<F> {
    /// Returns a file that isn't open, with the octets of a line's end and of the header. No row is being written.
    pub fn new(file: F, line_end: Vec<u8>, header: Vec<u8>) -> Appender<F>
        ensures { result ≡ record {
          contents = F.contents file;
          line_end = record { octets = line_end.items; written = 0 };
          header = record { octets = header.items; written = 0 };
          row = None;
        } }
    {
        Appender {
            file,
            is_open: false,
            line_end: Line::new(line_end),
            header: Line::new(header),
            row: None,
            looked: 0,
            unsynced: None,
            trouble: None,
            sync_fault: None,
        }
    }

    /// Returns the file's trouble: it can't be opened or written to, or otherwise its last octets couldn't be synced.
    /// Returns `None` if there is none.
    pub fn trouble(&self) -> Option<Trouble> {
        match (self.trouble, self.sync_fault) {
            (Some(trouble), _) => Some(trouble),
            (None, Some(fault)) => Some(Trouble::Sync(fault)),
            (None, None) => None,
        }
    }

    /// Opens the file that the name leads to, at `now`, in milliseconds. The header is written before the next row if the
    /// file is empty, or the end of a line if its last one was cut. A row that is being written starts again.
    ///
    /// Returns `Fault` if the system refuses; then the file isn't open, and `trouble` is `Open`.
    pub fn open(&mut self, now: u64) -> Result<(), Fault>
        ensures ok { OnOk result (IsBegun self.old self.new) }
        ensures err { OnErr result (IsUnopened self.old self.new) }
    {
        self.looked = now;
        self.is_open = false;
        match self.file.open() {
            Ok(beginning) => {
                self.begin(beginning);
                Ok(())
            }
            Err(fault) => {
                self.trouble = Some(Trouble::Open(fault));
                Err(fault)
            }
        }
    }

    // Chooses the octets before the next row. A row that was cut is written again from its start.
    fn begin(&mut self, beginning: Beginning)
        ensures { self.new ≡ begun beginning self.old }
    {
        self.is_open = true;
        self.header.leave_out();
        self.line_end.leave_out();
        match beginning {
            Beginning::Empty => self.header.begin_again(),
            Beginning::CutLine => self.line_end.begin_again(),
            Beginning::Lines => {}
        }
        if let Some(row) = &mut self.row {
            row.begin_again();
        }
    }

    // Checks where the name leads, and opens the file there if it is another. Returns false if that can't be opened.
    fn follow_name(&mut self, now: u64) -> bool
        ensures { IsFaced self.old self.new }
    {
        self.looked = now;
        match self.file.look() {
            Whereabouts::Same => true,
            Whereabouts::Emptied => {
                self.begin(Beginning::Empty);
                true
            }
            Whereabouts::Elsewhere => {
                self.sync(now);
                self.open(now).is_ok()
            }
        }
    }

    /// Returns whether the file is open and is the one that the name leads to, at `now`, in milliseconds. It is checked if
    /// something is to be written, or once in three seconds. A file that can't be opened is tried once a second.
    pub fn is_ready(&mut self, now: u64, is_wanted: bool) -> bool
        ensures { IsFaced self.old self.new }
    {
        let age = now.saturating_sub(self.looked);
        if !self.is_open {
            return age >= RETRY_MS && self.open(now).is_ok();
        }
        if is_wanted || age >= IDLE_MS {
            return self.follow_name(now);
        }
        true
    }

    // Returns whether a line is being written.
    fn is_due(&self) -> bool
        ensures { IsFalse result → self.now.row ≡ None }
    {
        self.row.is_some() || !self.header.is_whole() || !self.line_end.is_whole()
    }

    /// Writes the pending lines to a file that is ready, at `now`, in milliseconds. Returns true if a row was written to
    /// its end.
    ///
    /// Returns `Fault` if the file doesn't take all of it. Then `trouble` is `Write`, and the next call continues at the
    /// same octet.
    pub fn go_on(&mut self, now: u64) -> Result<bool, Fault>
        ensures whole { whole self.new ≡ whole self.old }
        ensures written { IfOk result (λ is_row. (is_row ≡ is_some self.old.row) × (self.new.row ≡ None)) }
        ensures kept { OnErr result (row_octets self.new.row ≡ row_octets self.old.row) }
    {
        if !self.is_due() {
            self.trouble = None;
            return Ok(false);
        }
        self.unsynced = Some(self.unsynced.unwrap_or(now));
        match write_lines(
            &mut self.file,
            &mut self.line_end,
            &mut self.header,
            &mut self.row,
        ) {
            Ok(is_row) => {
                self.trouble = None;
                Ok(is_row)
            }
            Err(fault) => {
                self.trouble = Some(Trouble::Write(fault));
                Err(fault)
            }
        }
    }

    /// Returns whether a row is being written.
    pub fn has_row(&self) -> bool
        ensures { result ≡ is_some self.now.row }
    {
        self.row.is_some()
    }

    /// Sets the octets of the next row. None of them is written yet. No row may be pending.
    pub fn take(&mut self, octets: Vec<u8>)
        requires { self.old.row ≡ None }
        ensures { self.new ≡ record self.old { row = Some (record { octets = octets.items; written = 0 }) } }
    {
        self.row = Some(Line::new(octets));
    }

    // Syncs the written octets to the disk. If that fails, it is tried again later.
    fn sync(&mut self, now: u64)
        ensures { self.new ≡ self.old }
    {
        if self.unsynced.is_none() {
            return;
        }
        match self.file.sync() {
            Ok(()) => {
                self.unsynced = None;
                self.sync_fault = None;
            }
            Err(fault) => {
                self.unsynced = Some(now);
                self.sync_fault = Some(fault);
            }
        }
    }

    /// Syncs the written octets to the disk if the file is open and the sync is due. It is due 900 milliseconds after the
    /// first of them was written, or after the last try.
    pub fn sync_in_time(&mut self, now: u64)
        ensures { self.new ≡ self.old }
    {
        if let Some(since) = self.unsynced {
            if self.is_open && now.saturating_sub(since) >= SYNC_MS {
                self.sync(now);
            }
        }
    }

    /// Syncs the written octets to the disk, if the file is open.
    pub fn end(&mut self, now: u64)
        ensures { self.new ≡ self.old }
    {
        if self.is_open {
            self.sync(now);
        }
    }
}
