//! The law of text in XML, over every text.
ghost use Rattle.std.specs.Prelude.{◌≡◌, ℕ, List};
ghost use Rattle.std.specs.List.{flat_map};
ghost use Rattle.replay_views.specs.Xml.{xml_octet, read_text};

/// A reader of XML reads each text as it was, whatever octets it has. A law about definitions, for provers; the call does
/// nothing.
pub fn texts_are_read_back()
    ensures { (octets : List ℕ) → read_text (flat_map xml_octet octets) ≡ octets }
{}
