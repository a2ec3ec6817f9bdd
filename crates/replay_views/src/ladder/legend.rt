//! The legend of a picture. It explains only the looks that occur there.
ghost use Rattle.std.specs.Prelude.{◌≡◌};
ghost use Rattle.std.specs.List.{list_any};
ghost use Rattle.replay_views.specs.Legend.{has_sign, is_signed};

use crate::ladder::row::{Row, RowKind};
use plain_text::TextBuffer;

/// A sign that a row may have.
#[derive(Clone, Copy)]
pub(crate) enum Sign {
    /// The numbers of a full frame.
    Numbers,
    /// A dashed arrow.
    Resent,
    /// The colour of a refusal.
    Refused,
    /// The colour of media.
    Media,
}

// The signs and their texts, in the order of the legend.
const TEXTS: [(Sign, &str); 4] = [
    (
        Sign::Numbers,
        "call: source/destination; seq: OSeqno/ISeqno",
    ),
    (Sign::Resent, "dashed: sent again"),
    (Sign::Refused, "red: refused"),
    (Sign::Media, "grey: media, folded"),
];

// Returns whether a row has a sign.
fn has(row: &Row, sign: Sign) -> bool
    ensures { result ≡ has_sign sign row.now }
{
    match sign {
        Sign::Numbers => row.remote.is_some(),
        Sign::Resent => row.is_resent && !row.is_refused,
        Sign::Refused => row.is_refused,
        Sign::Media => matches!(row.kind, RowKind::Media),
    }
}

// Returns whether a shown row has a sign.
fn occurs(rows: &[Row], leg: Option<u16>, sign: Sign) -> bool
    ensures { result ≡ list_any (is_signed leg sign) rows.now }
{
    rows.iter().any(|row| row.is_shown(leg) && has(row, sign))
}

/// Writes the text of each sign that the shown rows have.
pub(crate) fn write_legend(rows: &[Row], leg: Option<u16>, out: &mut TextBuffer) {
    let mut gap = "";
    for (sign, text) in TEXTS {
        if occurs(rows, leg, sign) {
            out.text(gap);
            out.text(text);
            gap = "; ";
        }
    }
}
