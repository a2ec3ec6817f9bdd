//! A plan of an older version as one of the newest.
ghost use Rattle.std.specs.Prelude.{◌≡◌, false, IsOk, IsErr};
ghost use Rattle.peer_plan.specs.Reading.{plan_of};

use crate::rows::is_unknown;
use crate::tables::version_of;
use crate::walk::{Entry, EntryKind, Walk};
use peer_plan::{Key, Plan, PlanError, Section};
use plain_text::TextBuffer;
use std::alloc::Global;
use toml::Table;

/// The outcome of an upgrade.
#[derive(Clone, Copy, PartialEq, Eq)]
pub enum Upgrade {
    /// The plan is written as one of the newest version.
    Done,
    /// `Plan::read` refuses the plan.
    Refused,
    /// The plan has an unknown key in a list in brackets, which can't become a comment.
    InBrackets,
    /// Memory ran out.
    Memory,
}

// The comment below the version.
const HEAD: &str =
    "# Version 4 carries who calls and why a call ended from leg to leg, lets a call take any format that its peers have in\n\
# common, and answers no challenge of its own. Versions 1 and 2 do none of this, and no key turns it off.\n\
# No route without a source leads a call back to its caller. One whose source is its own peer does, as before.\n";

// The keys whose default differs, each with the value that is nearest to that of the older versions.
static LIMITS: [(Key, &str); 4] = [
    (
        Key::RecordLimit,
        "record_limit = 4096 # as before; without this line calls last a day, and not two hours\n",
    ),
    (
        Key::RecordOctets,
        "record_octets = 268435456 # as good as none, as before; without this line a leg takes some 2 MB at most\n",
    ),
    (
        Key::TrunkMs,
        "trunk_ms = 0 # next to what was before; without this line trunk frames fill for 20 ms\n",
    ),
    (
        Key::ChallengeMs,
        "challenge_ms = 60000 # the longest; before, a challenge waited without end. Without this line it waits for 10 s\n",
    ),
];

const POKE: &str =
    "poke = false # as before; without this line POKE is answered, so that qualify=yes works\n\
qualify_ms = 0 # as before; without this line the peer is asked every minute whether it is there\n";

// A plan as it is rewritten, and the end of the part already copied.
#[derive(Drop)]
struct Copying<'t, 'o> {
    alloc: Global,
    text: &'t [u8],
    root: &'t Table,
    version: u64,
    copied: usize,
    out: &'o mut TextBuffer,
}

// Returns the place at which the line of a place ends.
fn line_end(text: &[u8], at: usize) -> usize {
    let mut end = at;
    for octet in text.get(at..).unwrap_or(&[]) {
        if *octet == b'\n' {
            return end;
        }
        end = end.saturating_add(1);
    }
    end
}

impl Copying<'_, '_> {
    // Copies the text up to a place.
    fn copy_to(&mut self, to: usize) {
        self.out.put(self.text.get(self.copied..to).unwrap_or(&[]));
        self.copied = to.max(self.copied);
    }

    // Copies the rest of a line, and its end.
    fn copy_line(&mut self, at: usize) {
        self.copy_to(
            line_end(self.text, at)
                .saturating_add(1)
                .min(self.text.len()),
        );
    }

    // Writes the line of the version, and those that keep the meaning of a plan.
    fn write_version(&mut self, entry: Entry<'_>) {
        self.copy_to(entry.at);
        self.out.text("format = 4");
        let written = self
            .text
            .get(entry.at..entry.end)
            .unwrap_or(&[])
            .trim_ascii_end();
        self.copied = entry.at.saturating_add(written.len());
        self.copy_line(entry.end);
        self.out.text(HEAD);
        for (key, line) in &LIMITS {
            if is_unknown(Section::Plan, self.version, key.name().as_bytes())
                || self.root.get(key.name()).is_none()
            {
                self.out.text(line);
            }
        }
    }

    // Writes a key that the older version skips as a comment.
    fn write_skipped(&mut self, entry: Entry<'_>) {
        self.copy_to(entry.at);
        let written = self.text.get(entry.at..entry.end).unwrap_or(&[]);
        for line in written.split(|octet| *octet == b'\n') {
            if self.copied > entry.at {
                self.out.text("\n");
            }
            self.out.text("# ");
            self.out.put(line);
            self.copied = self.copied.saturating_add(line.len()).saturating_add(1);
        }
        self.copied = entry.end;
    }

    // Writes that a peer's POKE isn't answered and that it gets none, as in the older versions.
    fn write_poke(&mut self, entry: Entry<'_>) {
        if entry.name.is_empty() {
            self.copy_to(entry.end);
            self.out.text(" poke = false, qualify_ms = 0,");
        } else {
            self.copy_line(entry.end);
            self.out.text(POKE);
        }
    }

    fn write_entry(&mut self, entry: Entry<'_>) {
        match entry.kind {
            EntryKind::Table if entry.section == Section::Peer => self.write_poke(entry),
            EntryKind::Table => {}
            EntryKind::Key if is_unknown(entry.section, self.version, entry.name) => {
                self.write_skipped(entry)
            }
            EntryKind::Key => {
                if entry.section == Section::Plan && entry.name == Key::Format.name().as_bytes() {
                    self.write_version(entry);
                }
            }
            EntryKind::Other if entry.name.is_empty() => {}
            EntryKind::Other => self.write_skipped(entry),
        }
    }

    fn write_all(&mut self) {
        let mut walk = Walk::new(self.alloc, self.text);
        for _ in 0..self.text.len().saturating_add(1) {
            match walk.next() {
                Some(entry) => self.write_entry(entry),
                None => break,
            }
        }
        self.copy_to(self.text.len());
    }
}

fn write_from(alloc: Global, root: &Table, text: &[u8], out: &mut TextBuffer) {
    let version = version_of(root);
    if version == 4 {
        return out.put(text);
    }
    let mut copying = Copying {
        alloc,
        text,
        root,
        version,
        copied: 0,
        out,
    };
    copying.write_all();
}

/// Writes a plan of version 1 or 2 as one of version 4, with its comments. It means the same as far as version 4 has keys for it,
/// and further comments say what to look at. A plan of version 4 is written as it is.
///
/// The text is a plan only if the outcome is `Done`.
pub fn write_upgraded(alloc: Global, text: &[u8], out: &mut TextBuffer) -> Upgrade
    ensures plan { result ≡ Upgrade.Done → IsOk (plan_of out.new.octets.items) }
    ensures whole { result ≡ Upgrade.Done → out.new.is_cut ≡ false }
    ensures refused { result ≡ Upgrade.Refused → IsErr (plan_of text.now) }
{
    match Plan::read(alloc, text) {
        Ok(_) => {}
        Err(PlanError::Memory) => return Upgrade::Memory,
        Err(_) => return Upgrade::Refused,
    }
    let Ok(root) = toml::table_from_slice(alloc, text) else {
        return Upgrade::Memory;
    };
    write_from(alloc, &root, text, out);
    if out.is_cut {
        return Upgrade::Memory;
    }
    match Plan::read(alloc, &out.octets) {
        Ok(_) => Upgrade::Done,
        Err(PlanError::Memory) => Upgrade::Memory,
        Err(_) => Upgrade::InBrackets,
    }
}
