//! The words after a command.
ghost use Rattle.std.specs.Option.{SomeIff};
ghost use Rattle.std.specs.Prelude.{◌<◌, ◌≤◌, ◌^◌};
ghost use Rattle.std.specs.Str.Parse.{IsNumeral, digits_value};

use crate::decimal;

/// Returns the number of turns that a word asks for: decimal digits, from 1 to 4,294,967,295. Returns `None` if it isn't
/// such a number.
pub fn turn_count(word: &str) -> Option<u32>
    ensures { SomeIff result
        (IsNumeral 10 word.now × (1 ≤ digits_value 10 word.now) × (digits_value 10 word.now < 2 ^ 32)) (digits_value 10 word.now) }
{
    let turns = decimal(word.as_bytes())?;
    if turns == 0 {
        return None;
    }
    u32::try_from(turns).ok()
}
