//! Replays a script, line by line, through an exchange.
ghost use Rattle.std.specs.Prelude.{◌≡◌, ◌+◌, ◌<◌, ◌≤◌, ◌^◌, ◌⊎◌, Err, IfSome, IsOk, OnOk, if◌then◌else◌, is_ok, length};
ghost use Rattle.std.specs.Io.KnownBytes.{Appends};
ghost use Rattle.exchange_commands.specs.Printed.{outcome_line};
ghost use Rattle.peer_plan.specs.Reading.{plan_of};
ghost use Rattle.peer_plan.specs.declared.error.PlanError.{PlanError};
ghost use Rattle.peer_plan.specs.declared.error.PlanError.TheVariants as faults;
ghost use Rattle.exchange_commands.specs.declared.replaying.ReplayError.TheVariants as errors;

use crate::free_order::count_numbers;
use crate::player::Player;
use crate::printing::Printer;
use crate::replay_context::ReplayContext;
use crate::viewer::{Stop, Viewer};
use crate::words::key_of;
use crate::{ScriptLine, ends_script, line_of};
use call_auth::Challenge;
use exchange_core::{Exchange, NoGate, Pass};
use media_ledger::Blank;
use peer_lock::{LedgerSet, Service};
use peer_plan::{Drawn, Plan, PlanError};
use std::alloc::{AllocError, Global};
use std::io;
use std::io::{BufWriter, Write};
use std::marker::Brand;
use std::sync::Wait;
use std::sync::ledger::Ledger;
use worker_setup::closed_accounts;

/// The content of the two files of a replay: the plan of an exchange, and a script.
#[derive(Clone, Copy)]
pub struct ReplayFiles<'a> {
    pub plan: &'a [u8],
    pub script: &'a [u8],
}

/// The reason why a replay ends before its script does.
#[derive(Debug, Drop, PartialEq, Eq)]
pub enum ReplayError {
    /// The plan is refused.
    Plan(PlanError),
    /// The line of this number, from 1 on, isn't of a known form, or names an unknown peer.
    Script(usize),
    /// A request for memory was refused.
    Memory,
    /// The output can't be written.
    Writer,
}

impl From<AllocError> for ReplayError {
    ghost from_gives = { λ _ e. e ≡ errors.Memory };

    fn from(_error: AllocError) -> ReplayError {
        ReplayError::Memory
    }
}

// Returns the reason why a replay ended at a line.
fn stopped_at(line: usize, stop: Stop) -> ReplayError {
    match stop {
        Stop::Script => ReplayError::Script(line),
        Stop::Memory => ReplayError::Memory,
        Stop::Writer => ReplayError::Writer,
    }
}

/// Writes why a replay ended, and returns the status: 0 at the end of the script, or else 1. It writes `refused <fault>`,
/// `refused Script <line>` or `refused Memory`, and nothing if the output can't be written.
pub fn write_outcome<W: Write>(outcome: Result<(), ReplayError>, writer: &mut W) -> u8
    ensures { result ≡ (if is_ok outcome then 0 else 1) }
{
    match outcome {
        Ok(()) => 0,
        Err(error) => {
            let _ = write_error(error, writer);
            1
        }
    }
}

// Writes the reason why a replay ended.
fn write_error<W: Write>(error: ReplayError, writer: &mut W) -> io::Result<()>
    ensures { OnOk result (Appends (W.contents writer.old) (W.contents writer.new) (outcome_line error)) }
{
    match error {
        ReplayError::Plan(fault) => writeln!(writer, "refused {fault}"),
        ReplayError::Script(line) => writeln!(writer, "refused Script {line}"),
        ReplayError::Memory => writeln!(writer, "refused Memory"),
        ReplayError::Writer => Ok(()),
    }
}

// Closes the accounts.
fn settle<J: LedgerSet, V: Viewer>(
    exchange: Exchange<NoGate, J>,
    passes: Vec<Pass<J>>,
    viewer: &mut V,
) -> Result<(), Stop> {
    match closed_accounts(exchange, passes) {
        Ok(accounts) => viewer.settled(&accounts),
        Err(_) => Err(Stop::Memory),
    }
}

// Plays one line. After `settle` only empty lines and comments may follow.
fn work_line<J: LedgerSet, R: Wait, V: Viewer>(
    rt: &R,
    alloc: Global,
    player: &mut Player,
    open: &mut Option<(Exchange<NoGate, J>, Vec<Pass<J>>)>,
    line: &[u8],
    viewer: &mut V,
) -> Result<(), Stop> {
    match (line_of(line), open) {
        (Some(ScriptLine::Nothing), _) => Ok(()),
        (Some(ScriptLine::Settle), open) => match open.take() {
            Some((exchange, passes)) => settle(exchange, passes, viewer),
            None => Err(Stop::Script),
        },
        (Some(line), Some((exchange, passes))) => match passes.first_mut() {
            Some(pass) => {
                let mut context = ReplayContext {
                    rt,
                    alloc,
                    exchange: &*exchange,
                    pass,
                    viewer,
                };
                player.line(&mut context, &line)
            }
            None => Err(Stop::Script),
        },
        _ => Err(Stop::Script),
    }
}

// Closes an exchange that is still open. It isn't dropped, because a drop would have to be proved here field by field.
fn close<J: LedgerSet>(open: Option<(Exchange<NoGate, J>, Vec<Pass<J>>)>) {
    if let Some((exchange, passes)) = open {
        let _accounts = closed_accounts(exchange, passes);
    }
}

// Returns the player of a script on an exchange of the plan, which is reported to the viewer.
fn player_of<V: Viewer>(alloc: Global, plan: &Plan, viewer: &mut V) -> Result<Player, Stop> {
    let Some(player) = Player::new(alloc, plan) else {
        return Err(Stop::Memory);
    };
    match viewer.opened(plan) {
        Ok(()) => Ok(player),
        Err(stop) => Err(stop),
    }
}

// Plays the lines of the script, in order, through an exchange of the ledgers that the caller names, whose first leg has this
// serial. An error has the number of its line.
fn play<O: Ledger + Send + Sync, S: Ledger + Send + Sync, R: Wait, V: Viewer>(
    rt: &R,
    alloc: Global,
    plan: Plan,
    player: &mut Player,
    script: &[u8],
    viewer: &mut V,
    octets: Blank,
    steps: Blank,
    first_serial: u64,
) -> Result<(), ReplayError>
    requires octets { (octets.name ≡ O.name) × (octets.parts ≡ O.parts) × (octets.parts ≡ length plan.peers + plan.passes) }
    requires steps { (steps.name ≡ S.name) × (steps.parts ≡ S.parts) × (steps.parts ≡ length plan.peers + plan.passes) }
{
    let Ok(opened) = Exchange::<NoGate, Service<O, S>>::open_at(
        alloc,
        plan,
        NoGate,
        octets,
        steps,
        first_serial,
    ) else {
        return Err(ReplayError::Memory);
    };
    let mut open = Some(opened);
    let mut played = Ok(());
    for (place, line) in script.split(|octet| *octet == b'\n').enumerate() {
        if ends_script(line) {
            break;
        }
        if let Err(stop) = work_line(rt, alloc, player, &mut open, line, viewer) {
            played = Err(stopped_at(place.saturating_add(1), stop));
            break;
        }
    }
    close(open);
    played
}

/// Replays a script on an exchange of its plan, up to its end or to the first line that is refused. Reports the results of
/// each line to the viewer.
///
/// `write_outcome` writes the outcome as `replay` does.
///
/// Returns `Plan` with the plan's first fault if the plan is refused, and `Memory` if a request for memory was refused.
/// Returns `Script` with the number of a refused line, from 1 on, or 0 if the viewer returns `Script` when the exchange is
/// opened. Returns `Writer` if the viewer does.
pub fn replay_with<R: Wait, V: Viewer>(
    rt: &R,
    alloc: Global,
    files: ReplayFiles<'_>,
    viewer: &mut V,
) -> Result<(), ReplayError>
    ensures valid { IsOk result → IsOk (plan_of files.entry.plan.now) }
    ensures fault { (fault : PlanError) → plan_of files.entry.plan.now ≡ Err fault →
        (result ≡ Err (errors.Plan fault)) ⊎ (result ≡ Err (errors.Plan faults.Memory)) }
{
    match Plan::read(alloc, files.plan) {
        Ok(plan) => play_plan(rt, alloc, plan, files.script, viewer),
        Err(fault) => Err(ReplayError::Plan(fault)),
    }
}

// Returns the values that the exchange of a script drew when it was opened: those of the first lines, without empty lines
// and comments.
fn drawn_of(script: &[u8]) -> Drawn {
    let mut drawn = Drawn::nothing();
    for line in script.split(|octet| *octet == b'\n') {
        match line_of(line) {
            Some(ScriptLine::Nothing) => {}
            Some(ScriptLine::Prefix(text)) => drawn.challenge_prefix = Challenge::new(text),
            Some(ScriptLine::Offset(offset)) => {
                drawn.poke_offset = u32::try_from(offset).unwrap_or(0);
            }
            Some(ScriptLine::Key(digits)) => {
                let key = key_of(digits).unwrap_or([0; 32]);
                drawn.token_key = key;
                return drawn;
            }
            _ => return drawn,
        }
    }
    drawn
}

// The serial of the first leg of a script's exchange: that of its line `serial`, less what the `free` lines before it use; 0
// without such a line.
fn first_serial_of(script: &[u8]) -> u64 {
    let mut used: u64 = 0;
    for line in script.split(|octet| *octet == b'\n') {
        match line_of(line) {
            Some(
                ScriptLine::Nothing
                | ScriptLine::Prefix(_)
                | ScriptLine::Offset(_)
                | ScriptLine::Key(_),
            ) => {}
            Some(ScriptLine::Free(_, numbers)) => used = used.saturating_add(count_numbers(
                numbers,
            )),
            Some(ScriptLine::Serial(serial)) => return serial.saturating_sub(used),
            _ => return 0,
        }
    }
    0
}

// Replays a script on a valid plan.
fn play_plan<R: Wait, V: Viewer>(
    rt: &R,
    alloc: Global,
    plan: Plan,
    script: &[u8],
    viewer: &mut V,
) -> Result<(), ReplayError> {
    let plan = plan.with_drawn(&drawn_of(script));
    let mut player = match player_of(alloc, &plan, viewer) {
        Ok(player) => player,
        Err(stop) => return Err(stopped_at(0, stop)),
    };
    let parts = u64::from(plan.peer_count()) + u64::from(plan.passes());
    let (octets, steps) = (Blank::new(parts), Blank::new(parts));
    let first_serial = first_serial_of(script);
    play::<Brand, Brand, R, V>(
        rt,
        alloc,
        plan,
        &mut player,
        script,
        viewer,
        octets,
        steps,
        first_serial,
    )
}

/// Replays a script on an exchange of its plan, and prints the results of each line. Returns the status: 0 at the end of
/// the script, otherwise 1.
///
/// A refused plan is printed as `check` prints it.
pub fn replay<R: Wait, W: Write>(
    rt: &R,
    alloc: Global,
    files: ReplayFiles<'_>,
    writer: &mut W,
) -> u8
    ensures status { result ≤ 1 }
    ensures valid { result ≡ 0 → IsOk (plan_of files.entry.plan.now) }
{
    let outcome = replay_with(rt, alloc, files, &mut Printer { writer });
    write_outcome(outcome, writer)
}

// Flushes the output and returns the status of a replay. Only the status reports that the output can't be written.
fn flushed<W: Write>(status: u8, writer: &mut W) -> u8
    ensures { (result ≡ status) ⊎ (result ≡ 1) }
{
    match writer.flush() {
        Ok(()) => status,
        Err(_) => 1,
    }
}

/// Replays as `replay` does, but writes in large pieces, because a script may have millions of lines. Prints `refused
/// Memory` if there is no memory for a piece.
pub fn replay_buffered<R: Wait, W: Write>(
    rt: &R,
    alloc: Global,
    files: ReplayFiles<'_>,
    writer: &mut W,
) -> u8
    ensures status { result ≤ 1 }
    ensures valid { result ≡ 0 → IsOk (plan_of files.entry.plan.now) }
{
    if let Ok(mut buffered) = BufWriter::new(alloc, &mut *writer) {
        let status = replay(rt, alloc, files, &mut buffered);
        return flushed(status, &mut buffered);
    }
    write_outcome(Err(ReplayError::Memory), writer)
}
