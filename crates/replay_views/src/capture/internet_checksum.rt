//! The Internet checksum (RFC 1071).
ghost use Rattle.std.specs.Prelude.{◌≡◌, ◌+◌, ◌*◌, ◌≤◌, ◌<◌, ◌^◌, length};
ghost use Rattle.replay_views.specs.InternetChecksum.{checksum as checksum_of};
ghost use Rattle.replay_views.specs.InternetChecksum.{ones_complement, word_sum};

// Returns the sum of the words.
fn sum_words(octets: &[u8]) -> u64
    requires { length octets.now < 2 ^ 32 }
    ensures { result ≡ word_sum octets.now }
{
    let mut sum: u64 = 0;
    let mut rest = octets;
    while let [high, low, after @ ..] = rest {
        sum += 256 * u64::from(*high) + u64::from(*low);
        rest = after;
    }
    match rest {
        [high] => sum + 256 * u64::from(*high),
        _ => sum,
    }
}

// Returns the sum, kept to 16 bits.
fn kept(sum: u64) -> u16
    ensures { result ≡ ones_complement sum }
{
    if sum == 0 {
        0
    } else {
        ((sum - 1) % 65535 + 1) as u16
    }
}

/// Returns the checksum of fewer than 2^32 octets (RFC 1071): the one's complement of their one's complement sum.
pub fn checksum(octets: &[u8]) -> u16
    requires { length octets.now < 2 ^ 32 }
    ensures { result ≡ checksum_of octets.now }
{
    65535 - kept(sum_words(octets))
}
