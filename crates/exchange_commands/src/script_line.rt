//! The lines of a script.
ghost use Rattle.std.specs.List.{starts_with};
ghost use Rattle.std.specs.Option.{SomeIff};
ghost use Rattle.std.specs.Prelude.{◌≡◌, ◌<◌, ◌^◌, ◌∷◌, [], length, nat_eq, Some};
ghost use Rattle.std.specs.Str.Parse.{IsNumeral, digits_value};
ghost use Rattle.exchange_commands.specs.declared.script_line.ScriptLine.TheVariants.{Nothing};

/// A parsed line.
#[derive(Clone, Copy)]
pub enum ScriptLine<'a> {
    /// An empty line or a comment.
    Nothing,
    /// `at <ms>`: the moment, in milliseconds. It may not be earlier than the last.
    At(u64),
    /// `back <ms>`: an earlier moment, of a caller that read its clock before another.
    Back(u64),
    /// `challenge <text>`: the challenge for callers from now on.
    Challenge(&'a [u8]),
    /// `prefix <text>`: the prefix of this exchange's challenges. Only empty lines and comments may come before it.
    Prefix(&'a [u8]),
    /// `offset <n>`: what is added to the moments in the timestamps of POKEs. Only empty lines, comments and `prefix` may
    /// come before it.
    Offset(u64),
    /// `key <hex>`: the key of this exchange's call tokens. Only empty lines, comments, `prefix` and `offset` may come before
    /// it.
    Key(&'a [u8]),
    /// `serial <n>`: the serial of the next leg. Only empty lines, comments, `prefix`, `offset`, `key` and
    /// `free` are before it.
    Serial(u64),
    /// `rx <peer> <hex>`: a datagram from a peer.
    Rx(&'a [u8], &'a [u8]),
    /// `stranger <address:port> <hex>`: a datagram from an endpoint that no peer has.
    Stranger(&'a [u8], &'a [u8]),
    /// `call <peer> <number>`: a call to a peer.
    Call(&'a [u8], &'a [u8]),
    /// `hangup <number>`: hangs up the leg of a local number.
    HangUp(u64),
    /// `tick`: ticks all peers.
    Tick,
    /// `tick <peer>`: ticks one peer.
    TickOf(&'a [u8]),
    /// `hold`: keeps datagrams in the outboxes from here on, until `send`.
    Hold,
    /// `send`: sends the datagrams in all outboxes.
    Send,
    /// `send <peer>`: sends the datagrams in the outbox of a peer.
    SendTo(&'a [u8]),
    /// `free <peer> <numbers>`: the order in which the numbers of a peer without legs are given out, as `5-7,1,2-4`.
    Free(&'a [u8], &'a [u8]),
    /// `drain`: all peers drain, and a NEW that would open a leg is rejected. `drain off`: no peer drains.
    Drain(bool),
    /// `settle`: closes the accounts. No line follows it.
    Settle,
}

/// Returns the value of decimal digits, or `None` if there are none, if an octet isn't a digit, or if the value doesn't fit
/// 64 bits.
pub fn decimal(digits: &[u8]) -> Option<u64>
    ensures { SomeIff result (IsNumeral 10 digits.now × digits_value 10 digits.now < 2 ^ 64) (digits_value 10 digits.now) }
{
    if digits.is_empty() {
        return None;
    }
    let mut number: u64 = 0;
    for digit in digits {
        if !digit.is_ascii_digit() {
            return None;
        }
        let Some(tenfold) = number.checked_mul(10) else {
            return None;
        };
        let Some(next) = tenfold.checked_add(u64::from(*digit - b'0')) else {
            return None;
        };
        number = next;
    }
    Some(number)
}

// Returns the words of a line, separated by one space: at most four, because no line has more.
fn words(line: &[u8]) -> [Option<&[u8]>; 4] {
    let mut parts = line.split(|octet| *octet == b' ');
    [parts.next(), parts.next(), parts.next(), parts.next()]
}

// The first word of a line that is neither empty nor a comment.
#[derive(Clone, Copy)]
enum Command {
    At,
    Back,
    Challenge,
    Prefix,
    Offset,
    Key,
    Serial,
    Rx,
    Stranger,
    Call,
    HangUp,
    Tick,
    Hold,
    Send,
    Free,
    Drain,
    Settle,
}

const COMMANDS: [(&[u8], Command); 17] = [
    (b"at", Command::At),
    (b"back", Command::Back),
    (b"challenge", Command::Challenge),
    (b"prefix", Command::Prefix),
    (b"offset", Command::Offset),
    (b"key", Command::Key),
    (b"serial", Command::Serial),
    (b"rx", Command::Rx),
    (b"stranger", Command::Stranger),
    (b"call", Command::Call),
    (b"hangup", Command::HangUp),
    (b"tick", Command::Tick),
    (b"hold", Command::Hold),
    (b"send", Command::Send),
    (b"free", Command::Free),
    (b"drain", Command::Drain),
    (b"settle", Command::Settle),
];

fn command_of(word: &[u8]) -> Option<Command> {
    for (name, command) in &COMMANDS {
        if *name == word {
            return Some(*command);
        }
    }
    None
}

// Parses a line of a command alone.
fn said_by_one<'a>(command: Command) -> Option<ScriptLine<'a>> {
    match command {
        Command::Tick => Some(ScriptLine::Tick),
        Command::Hold => Some(ScriptLine::Hold),
        Command::Send => Some(ScriptLine::Send),
        Command::Drain => Some(ScriptLine::Drain(true)),
        Command::Settle => Some(ScriptLine::Settle),
        _ => None,
    }
}

// Parses a line of a command and one more word.
fn said_by_two<'a>(command: Command, word: &'a [u8]) -> Option<ScriptLine<'a>> {
    match command {
        Command::Challenge => return Some(ScriptLine::Challenge(word)),
        Command::Prefix => return Some(ScriptLine::Prefix(word)),
        Command::Key => return Some(ScriptLine::Key(word)),
        Command::Tick => return Some(ScriptLine::TickOf(word)),
        Command::Send => return Some(ScriptLine::SendTo(word)),
        Command::Drain if word == b"off".as_slice() => return Some(ScriptLine::Drain(false)),
        _ => {}
    }
    let number = decimal(word)?;
    match command {
        Command::At => Some(ScriptLine::At(number)),
        Command::Back => Some(ScriptLine::Back(number)),
        Command::Offset => Some(ScriptLine::Offset(number)),
        Command::Serial => Some(ScriptLine::Serial(number)),
        Command::HangUp => Some(ScriptLine::HangUp(number)),
        _ => None,
    }
}

// Parses a line of a command, a peer and one more word.
fn said_by_three<'a>(command: Command, peer: &'a [u8], word: &'a [u8]) -> Option<ScriptLine<'a>> {
    match command {
        _ if word.is_empty() => None,
        Command::Rx => Some(ScriptLine::Rx(peer, word)),
        Command::Stranger => Some(ScriptLine::Stranger(peer, word)),
        Command::Free => Some(ScriptLine::Free(peer, word)),
        Command::Call => Some(ScriptLine::Call(peer, word)),
        _ => None,
    }
}

// Parses a line that is neither empty nor a comment.
fn said_by(line: &[u8]) -> Option<ScriptLine<'_>> {
    let [first, second, third, fourth] = words(line);
    let command = command_of(first?)?;
    match (second, third, fourth) {
        (None, None, None) => said_by_one(command),
        (Some(word), None, None) => said_by_two(command, word),
        (Some(peer), Some(word), None) => said_by_three(command, peer, word),
        _ => None,
    }
}

/// Returns whether the script ends before this line, because the line begins with the octet 0. So a file can be overwritten
/// from its beginning: the old octets behind the last new line are ignored.
pub fn ends_script(line: &[u8]) -> bool
    ensures { result ≡ starts_with nat_eq line.now (0 ∷ []) }
{
    line.starts_with(&[0])
}

/// Parses a line without its line feed, whose words are separated by one space each. Returns `None` if it has none of these
/// forms, or a number that doesn't fit 64 bits. Names, digits and lists aren't checked here.
pub fn line_of(line: &[u8]) -> Option<ScriptLine<'_>>
    ensures empty { length line.now ≡ 0 → result ≡ Some Nothing }
{
    if line.is_empty() || line.starts_with(b"#") {
        return Some(ScriptLine::Nothing);
    }
    said_by(line)
}
