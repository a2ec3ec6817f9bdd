//! Octets in two pieces, as those of a ring are.
ghost use Rattle.std.specs.Prelude.{◌≡◌, ◌+◌, ◌<◌, ◌≤◌, ◌^◌, length, take, drop, slice_index};
ghost use Rattle.iax_frames.specs.Octets.{u16_at as word};

use std::marker::Model;

/// Octets in two pieces. Contracts see them as one list.
#[derive(Drop)]
pub(crate) struct Pieces<'a> {
    pub(crate) front: &'a [u8],
    pub(crate) back: &'a [u8],
}

impl<'a> Model for Pieces<'a> {
    ghost use Rattle.std.specs.Prelude.{List, ℕ, ◌++◌};

    ghost Value = { List ℕ };

    ghost view = { λ pieces. pieces.front.now ++ pieces.back.now };
}

impl<'a> Pieces<'a> {
    pub(crate) fn len(&self) -> usize
        requires { length self.now < 2 ^ 63 }
        ensures { result ≡ length self.now }
    {
        self.front.len() + self.back.len()
    }

    // Returns the first `len` octets, and the rest.
    pub(crate) fn split_at(&self, len: usize) -> (Pieces<'a>, Pieces<'a>)
        requires { len ≤ length self.now }
        ensures taken { result.0 ≡ take len self.now }
        ensures rest { result.1 ≡ drop len self.now }
    {
        if len <= self.front.len() {
            let (taken, rest) = self.front.split_at(len);
            let back: &[u8] = &[];
            (
                Pieces { front: taken, back },
                Pieces {
                    front: rest,
                    back: self.back,
                },
            )
        } else {
            let (taken, rest) = self.back.split_at(len - self.front.len());
            let back: &[u8] = &[];
            (
                Pieces {
                    front: self.front,
                    back: taken,
                },
                Pieces { front: rest, back },
            )
        }
    }

    fn octet(&self, at: usize) -> u8
        requires { at < length self.now }
        ensures { result ≡ slice_index self.now at }
    {
        if at < self.front.len() {
            self.front[at]
        } else {
            self.back[at - self.front.len()]
        }
    }

    pub(crate) fn u16_at(&self, at: usize) -> u16
        requires within { at + 2 ≤ length self.now }
        requires short { length self.now < 2 ^ 63 }
        ensures { result ≡ word self.now at }
    {
        self.octet(at) as u16 * 256 + self.octet(at + 1) as u16
    }
}
