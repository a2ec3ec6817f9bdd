//! Octets, read as frames and as information elements.
use crate::tests::same::{Place, holds_at};
use iax_frames::{Datagram, FrameError, read, subclass_meaning};
use info_elements::{Cut, elements};

/// The result of reading octets.
#[derive(Clone, Copy)]
enum Found {
    /// They are no frame, for this reason.
    NoFrame(FrameError),
    /// The octet of C and subclass means this.
    Meaning(Option<u64>),
    /// They end within this element, if within one.
    Elements(Option<Cut>),
    /// They are a mini frame of this source and timestamp, without media.
    EmptyMini(u16, u16),
}

static READ: [(&[u8], Found); 12] = [
    (
        &[0x80, 7, 0, 0, 0, 0, 0, 0, 0, 0, 6],
        Found::NoFrame(FrameError::Short),
    ),
    (&[], Found::NoFrame(FrameError::Short)),
    (&[0, 0, 2, 0], Found::NoFrame(FrameError::MetaCommand(2))),
    (
        &[0, 0, 1, 0, 0, 0, 0, 0x14, 0, 1, 0, 3, 0xaa, 0xbb],
        Found::NoFrame(FrameError::EntryCut(8)),
    ),
    (&[0, 0x0a, 0, 1], Found::EmptyMini(10, 1)),
    (&[0x82], Found::Meaning(Some(4))),
    (&[0xc0], Found::Meaning(None)),
    (&[0x04], Found::Meaning(Some(4))),
    (&[0xbf], Found::Meaning(Some(1 << 63))),
    (&[0x0b, 2, 0], Found::Elements(Some(Cut(0)))),
    (&[0x0b, 2, 0, 2, 1], Found::Elements(Some(Cut(4)))),
    (&[], Found::Elements(None)),
];

fn is_empty_mini(octets: &[u8], source: u16, timestamp: u16) -> bool {
    match read(octets) {
        Ok(Datagram::Mini(mini)) => {
            mini.source().get() == source
                && mini.timestamp() == timestamp
                && mini.media().is_empty()
        }
        _ => false,
    }
}

// Returns whether reading the octets has this result.
fn is_found(octets: &[u8], found: Found) -> bool {
    match found {
        Found::NoFrame(error) => read(octets).err() == Some(error),
        Found::Meaning(meaning) => match octets {
            [octet] => subclass_meaning(*octet) == meaning,
            _ => false,
        },
        Found::Elements(cut) => elements(octets).err() == cut,
        Found::EmptyMini(source, timestamp) => is_empty_mini(octets, source, timestamp),
    }
}

#[test]
fn octets_are_read(rt: HostRuntime) {
    for (step, (octets, found)) in READ.iter().enumerate() {
        let at = Place {
            case: "octets that are read",
            step,
        };
        holds_at(&rt, at, is_found(octets, *found));
    }
}
