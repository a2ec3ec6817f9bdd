//! Challenges and their answers.
use crate::tests::same::{Place, same, same_at};
use call_auth::{accepts, answer};

/// Digits, and whether they answer the challenge `a` with the secret `bc`: RFC 1321 has the digest of `abc`.
static DIGITS: [(&[u8], bool); 3] = [
    (b"900150983cd24fb0d6963f7d28e17f72", true),
    (b"900150983CD24FB0D6963F7D28E17F72", true),
    (b"900150983cd24fb0d6963f7d28e17f73", false),
];

#[test]
fn challenges_answered(rt: HostRuntime) {
    same(
        &rt,
        &answer(b"a", b"bc"),
        b"900150983cd24fb0d6963f7d28e17f72",
    );
    for (step, (digits, is_answer)) in DIGITS.iter().enumerate() {
        let at = Place {
            case: "digits",
            step,
        };
        same_at(&rt, at, &accepts(b"a", b"bc", digits), is_answer);
    }
}
