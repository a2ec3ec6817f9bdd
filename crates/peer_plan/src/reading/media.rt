//! Formats and trunks of a peer.
ghost use Rattle.std.specs.Prelude.{◌≡◌, Err};
ghost use Rattle.toml.specs.View.{view, table_view, items_view};
ghost use Rattle.peer_plan.specs.Fields.{value};
ghost use Rattle.peer_plan.specs.Reading.{with_format, with_format_in, formats_from, formats_in, media_in};

use crate::error::PlanError;
use crate::key::Key;
use crate::peer::Media;
use crate::reading::fields::{flag_at, required};
use call_signals::Formats;
use toml::{Table, Value};

// Returns the formats with the one of this name added.
fn with_format(formats: Formats, name: &str) -> Option<Formats>
    ensures { result ≡ with_format formats name.now }
{
    if name == "gsm" {
        return Some(Formats {
            gsm: true,
            ..formats
        });
    }
    if name == "ulaw" {
        return Some(Formats {
            ulaw: true,
            ..formats
        });
    }
    if name == "alaw" {
        return Some(Formats {
            alaw: true,
            ..formats
        });
    }
    None
}

fn with_format_of(formats: Formats, item: &Value) -> Option<Formats>
    ensures { result ≡ with_format_in formats (view item.now) }
{
    with_format(formats, item.as_str()?)
}

fn formats_from(items: &[Value]) -> Option<Formats>
    ensures { result ≡ formats_from (items_view items.now) }
{
    if items.is_empty() {
        return None;
    }
    let mut formats = Formats {
        gsm: false,
        ulaw: false,
        alaw: false,
    };
    for item in items {
        formats = with_format_of(formats, item)?;
    }
    Some(formats)
}

fn formats(found: &Value) -> Option<Formats>
    ensures { result ≡ formats_in (view found.now) }
{
    formats_from(found.as_array()?.as_slice())
}

fn formats_at(table: &Table, key: Key) -> Result<Formats, PlanError>
    ensures { result ≡ value (table_view table.now) key (Err (PlanError.Missing key)) formats_in }
{
    formats(required(table, key)?).ok_or(PlanError::Range(key))
}

// Returns how media is sent to a peer.
#[tactic(auto, unfolding(crate::specs::Reading::media_in))]
pub(crate) fn media(table: &Table) -> Result<Media, PlanError>
    ensures { result ≡ media_in (table_view table.now) }
{
    let formats = formats_at(table, Key::Formats)?;
    let trunk = flag_at(table, Key::Trunk, false)?;
    let trunk_timestamps = flag_at(table, Key::TrunkTimestamps, false)?;
    Ok(Media {
        formats,
        trunk,
        trunk_timestamps,
    })
}
