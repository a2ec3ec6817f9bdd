//! Text in XML.
ghost use Rattle.std.specs.Prelude.{◌≡◌, ◌++◌, OnOk};
ghost use Rattle.std.specs.List.{flat_map};
ghost use Rattle.replay_views.specs.Xml.{xml_octet};

use std::alloc::AllocError;

// Adds an octet of a text.
fn push_octet(out: &mut Vec<u8>, octet: u8) -> Result<(), AllocError>
    ensures { OnOk result (out.new.items ≡ out.old.items ++ xml_octet octet) }
{
    match octet {
        b'&' => out.extend_from_slice(b"&amp;"),
        b'<' => out.extend_from_slice(b"&lt;"),
        b'>' => out.extend_from_slice(b"&gt;"),
        b'"' => out.extend_from_slice(b"&quot;"),
        _ => out.extend_from_slice(&[octet]),
    }
}

/// Adds a text, in which nothing is read as markup.
///
/// `AllocError`: a request for memory was refused. Then a part of the text may have been added.
pub fn push_escaped(out: &mut Vec<u8>, text: &[u8]) -> Result<(), AllocError>
    ensures { OnOk result (out.new.items ≡ out.old.items ++ flat_map xml_octet text.now) }
{
    for octet in text {
        push_octet(out, *octet)?;
    }
    Ok(())
}
