//! Numbers in decimal digits.
ghost use Rattle.std.specs.Prelude.{◌≡◌, ◌≤◌, option_map};
ghost use Rattle.control_requests.specs.Digits.{number_of, up_to};

fn up_to(limit: u32, number: u64) -> u64
    ensures { result ≡ up_to limit number }
{
    if number <= u64::from(limit) {
        number
    } else {
        u64::from(limit) + 1
    }
}

/// Returns the number that digits write, capped at `limit` + 1, or `None` if they aren't digits alone.
pub(crate) fn number_up_to(limit: u32, digits: &[u8]) -> Option<u64>
    ensures value { result ≡ option_map (up_to limit) (number_of digits.now) }
{
    if digits.is_empty() {
        return None;
    }
    let mut number = 0;
    for digit in digits {
        if !digit.is_ascii_digit() {
            return None;
        }
        number = up_to(limit, 10 * number + u64::from(*digit - b'0'));
    }
    Some(number)
}
