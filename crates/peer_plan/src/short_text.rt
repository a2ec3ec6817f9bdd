//! Short texts.
ghost use Rattle.std.specs.Prelude.{◌≡◌, ◌≤◌, length};

use arrayvec::ArrayString;
use std::marker::Model;

// A text of at most 32 octets, stored in the value itself. Contracts see its octets.
#[derive(Drop)]
pub(crate) struct ShortText {
    text: ArrayString<32>,
}

impl Model for ShortText {
    ghost use Rattle.std.specs.Prelude.{List, ℕ};

    ghost Value = { List ℕ };

    ghost view = { λ short. short.text.bytes };
}

impl ShortText {
    pub(crate) fn new(text: &str) -> ShortText
        requires { length text.now ≤ 32 }
        ensures { result ≡ text.now }
    {
        let mut short = ArrayString::new();
        short.push_str(text);
        ShortText { text: short }
    }

    pub(crate) fn as_str(&self) -> &str
        ensures value { result.now ≡ self.now }
        ensures most { length result.now ≤ 32 }
    {
        self.text.as_str()
    }
}
