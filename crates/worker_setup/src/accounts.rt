//! Closes and writes the accounts of an exchange.
ghost use Rattle.std.specs.Prelude.{◌≡◌, ◌+◌, ◌≤◌, IfOk, OnOk, length};
ghost use Rattle.std.specs.Io.KnownBytes.{Appends};
ghost use Rattle.worker_setup.specs.Accounts.{AreSums, WereAccountsWritten, accounts_text};

use exchange_core::{Exchange, NoGate, Pass};
use peer_lock::LedgerSet;
use std::alloc::AllocError;
use std::io;
use std::io::Write;

/// The octets of media over all peers, from the closed accounts.
#[derive(Clone, Copy)]
pub struct MediaAccounts {
    pub accepted: u64,
    pub packed: u64,
    pub queued: u64,
    pub dropped: u64,
    /// The part of the dropped octets that the other side had quelched.
    pub quelched: u64,
}

/// Writes `octets <accepted> <packed> <queued> <dropped>`, and `quelched <n>` if that isn't 0.
///
/// Returns the writer's error at the first line that can't be written.
pub fn write_accounts<W: Write>(accounts: &MediaAccounts, writer: &mut W) -> io::Result<()>
    ensures { OnOk result (Appends (W.contents writer.old) (W.contents writer.new) (accounts_text accounts.now)) }
{
    writeln!(
        writer,
        "octets {} {} {} {}",
        accounts.accepted, accounts.packed, accounts.queued, accounts.dropped
    )?;
    if accounts.quelched > 0 {
        writeln!(writer, "quelched {}", accounts.quelched)?;
    }
    Ok(())
}

/// Closes the accounts of an exchange with all its passes: accepted octets were packed, wait, or were dropped.
///
/// Returns `AllocError` if a request for memory was refused, or if a pass is missing.
pub fn closed_accounts<J: LedgerSet>(
    exchange: Exchange<NoGate, J>,
    passes: Vec<Pass<J>>,
) -> Result<MediaAccounts, AllocError>
    ensures balances { IfOk result (λ accounts. accounts.accepted ≡ accounts.packed + accounts.queued + accounts.dropped) }
    ensures part { IfOk result (λ accounts. accounts.quelched ≤ accounts.dropped) }
    ensures sums { IfOk result (AreSums (length exchange.peers) passes.items) }
{
    match exchange.settle(passes) {
        Ok(settlement) => Ok(MediaAccounts {
            accepted: settlement.accepted,
            packed: settlement.packed,
            queued: settlement.queued,
            dropped: settlement.dropped,
            quelched: settlement.quelched,
        }),
        Err(_) => Err(AllocError),
    }
}

/// Closes the accounts of an exchange with all its passes, and writes them: `octets <accepted> <packed> <queued>
/// <dropped>`, and `quelched <n>` if that isn't 0. All are octets of media.
///
/// Returns `AllocError` if a request for memory was refused or a pass is missing; then nothing is written. Returns
/// `io::Error` if the output can't be written.
pub fn settle<J: LedgerSet, W: Write, S: From<io::Error> + From<AllocError>>(
    exchange: Exchange<NoGate, J>,
    passes: Vec<Pass<J>>,
    writer: &mut W,
) -> Result<(), S>
    ensures { OnOk result
        (WereAccountsWritten (length exchange.peers) passes.items (W.contents writer.old) (W.contents writer.new)) }
{
    match closed_accounts(exchange, passes) {
        Ok(accounts) => Ok(write_accounts(&accounts, writer)?),
        Err(error) => Err(S::from(error)),
    }
}
