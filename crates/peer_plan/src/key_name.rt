//! The name of a key that a plan doesn't have.
ghost use Rattle.std.specs.Prelude.{◌≡◌, ◌≤◌, length, nat_eq};
ghost use Rattle.std.specs.Cmp.{partial_equiv_from_equiv};
ghost use Rattle.std.specs.Cmp.Lexicographic.{pointwise, nat_list_eq_equiv};
ghost use Rattle.peer_plan.specs.UnknownKeys.{shown_octet, shown_name};

use arrayvec::ArrayString;
use std::fmt;
use std::marker::Model;

/// A name as it is printed: its first 64 octets, `?` in place of each that isn't 0x20 ..= 0x7e. Contracts see its octets.
#[derive(Debug, Drop)]
pub struct KeyName {
    text: ArrayString<64>,
}

impl Model for KeyName {
    ghost use Rattle.std.specs.Prelude.{List, ℕ};

    ghost Value = { List ℕ };

    ghost view = { λ name. name.text.bytes };
}

fn shown_octet(octet: u8) -> u8
    ensures { result ≡ shown_octet octet }
{
    if octet >= 0x20 && octet <= 0x7e {
        octet
    } else {
        b'?'
    }
}

impl KeyName {
    // Takes no memory.
    pub(crate) fn new(name: &str) -> KeyName
        ensures { result ≡ shown_name name.now }
    {
        let octets = name.as_bytes();
        let first = &octets[..octets.len().min(64)];
        let mut text = ArrayString::new();
        for octet in first {
            text.push(char::from(shown_octet(*octet)));
        }
        KeyName { text }
    }

    /// Returns the name, at most 64 octets 0x20 ..= 0x7e.
    pub fn as_str(&self) -> &str
        ensures { result.now ≡ self.now }
    {
        self.text.as_str()
    }
}

impl PartialEq for KeyName {
    ghost eq = { pointwise nat_eq };

    ghost laws = { partial_equiv_from_equiv nat_list_eq_equiv };

    fn eq(&self, other: &KeyName) -> bool {
        self.as_str() == other.as_str()
    }
}

impl Eq for KeyName {
    ghost laws = { nat_list_eq_equiv };
}

impl fmt::Display for KeyName {
    ghost use Rattle.std.specs.Prelude.{Some};

    ghost output = { λ name. Some name };

    fn fmt<W: fmt::Write>(&self, f: &mut fmt::Formatter<W>) -> fmt::Result {
        f.write_str(self.as_str())
    }
}
