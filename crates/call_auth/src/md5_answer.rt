//! The answer to a challenge ("MD5 RESULT").
ghost use Rattle.std.specs.Prelude.{◌≡◌, ◌↔◌, IsTrue, map};
ghost use Rattle.std.specs.Char.{to_ascii_lowercase};
ghost use Rattle.call_auth.specs.Md5Answer.{md5_answer};

use md5::{Digest, Md5};

/// Returns the answer to a challenge: the MD5 digest (RFC 1321) of the challenge followed by the secret, as 32 lower-case
/// hexadecimal digits. It takes no memory.
pub fn answer(challenge: &[u8], secret: &[u8]) -> [u8; 32]
    ensures { result ≡ md5_answer challenge.now secret.now }
{
    let mut hasher = Md5::new();
    hasher.update(challenge);
    hasher.update(secret);
    let mut digits = [0u8; 32];
    let _ = hex::encode_to_slice(hasher.finalize(), &mut digits);
    digits
}

/// Returns whether a result is the answer to a challenge, in hexadecimal digits of either case. It takes no memory.
pub fn accepts(challenge: &[u8], secret: &[u8], result_digits: &[u8]) -> bool
    ensures { IsTrue result ↔ (map to_ascii_lowercase result_digits.now ≡ md5_answer challenge.now secret.now) }
{
    result_digits.eq_ignore_ascii_case(&answer(challenge, secret))
}
