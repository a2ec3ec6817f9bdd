//! The losses of a full outbox.
ghost use Rattle.std.specs.Prelude.{◌≡◌};
ghost use Rattle.outbox.specs.Outbox.{with_lost};

/// The datagrams that a full outbox lost, by kind, each modulo 2^64.
#[derive(Clone, Copy, Debug, Default, PartialEq, Eq)]
pub struct Losses {
    /// Full frames. A numbered one is retransmitted as long as it isn't acknowledged.
    pub full: u64,
    /// Mini frames.
    pub mini: u64,
    /// Trunk frames, each with the media of several calls.
    pub trunk: u64,
}

impl Losses {
    // Returns the losses with one more datagram, which begins with these two octets.
    pub(crate) fn with(self, first: u8, second: u8) -> Losses
        ensures { result ≡ with_lost self first second }
    {
        let mut lost = self;
        if first >= 128 {
            lost.full = lost.full.wrapping_add(1);
        } else if first == 0 && second == 0 {
            lost.trunk = lost.trunk.wrapping_add(1);
        } else {
            lost.mini = lost.mini.wrapping_add(1);
        }
        lost
    }
}
