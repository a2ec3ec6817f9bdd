//! Call tokens, by which a caller shows that it receives datagrams at its endpoint (chan_iax2's CALLTOKEN; RFC 5456 has
//! none).
ghost use Rattle.std.specs.Prelude.{◌≡◌, ◌/◌};
ghost use Rattle.call_auth.specs.CallToken.{call_token, is_given};

use sha2::{Digest, Sha256};

/// The time for which one token is given out: 5,000 milliseconds. It is accepted for as long again.
pub const TOKEN_MS: u64 = 5_000;

/// The source of one endpoint's call tokens. No state is kept of a token that was given out.
#[derive(Clone, Copy, Debug)]
pub struct CallTokens {
    /// The key of the exchange, which nobody else knows.
    pub key: [u8; 32],
    /// The endpoint's IPv4 address.
    pub address: [u8; 4],
    /// The endpoint's UDP port.
    pub port: u16,
}

impl CallTokens {
    // Returns the token of the period of five seconds that has this number.
    fn of_period(&self, period: u64) -> [u8; 32]
        ensures { result ≡ call_token self.now period }
    {
        let mut hasher = Sha256::new();
        hasher.update(self.key);
        hasher.update(self.address);
        hasher.update(self.port.to_be_bytes());
        hasher.update(period.to_be_bytes());
        let digest = hasher.finalize();
        let (half, _) = digest.split_at(16);
        let mut digits = [0u8; 32];
        let _ = hex::encode_to_slice(half, &mut digits);
        digits
    }

    /// Returns the token that the endpoint is given at the moment `now`, in milliseconds: 32 lower-case hexadecimal digits.
    /// It takes no memory.
    pub fn token_at(&self, now: u64) -> [u8; 32]
        ensures { result ≡ call_token self.now (now / 5000) }
    {
        self.of_period(now / TOKEN_MS)
    }

    /// Returns whether a text is a token that the endpoint was given in these five seconds or in the five before, at the
    /// moment `now`, in milliseconds. It takes no memory.
    pub fn accepts(&self, now: u64, text: &[u8]) -> bool
        ensures { result ≡ is_given self.now now text.now }
    {
        let period = now / TOKEN_MS;
        text == self.of_period(period).as_slice()
            || (period > 0 && text == self.of_period(period - 1).as_slice())
    }
}
