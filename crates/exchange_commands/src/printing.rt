//! The output of a replay.
ghost use Rattle.std.specs.Prelude.{OnOk};
ghost use Rattle.std.specs.Io.KnownBytes.{Appends};
ghost use Rattle.exchange_commands.specs.Printed.{datagram_line, refused_line, retired_line, stage_line};
ghost use Rattle.hex.specs.Hex.{encode_lower};

use crate::viewer::{PeerOfPlan, ReceivedDatagram, Stop, Viewer};
use exchange_core::{Retired, refusal_name, stage_name};
use leg_machine::Stage;
use std::io;
use std::io::Write;
use worker_setup::{MediaAccounts, write_accounts};

/// Prints a replay, one line for each event.
#[derive(Drop)]
pub(crate) struct Printer<'a, W> {
    pub writer: &'a mut W,
}

// Converts the result of a write to that of a viewer.
fn viewer_result(written: io::Result<()>) -> Result<(), Stop> {
    match written {
        Ok(()) => Ok(()),
        Err(_) => Err(Stop::Writer),
    }
}

// Writes two digits for each octet.
fn write_digits<W: Write>(octets: &[u8], writer: &mut W) -> io::Result<()>
    ensures { OnOk result (Appends (W.contents writer.old) (W.contents writer.new) (encode_lower octets.now)) }
{
    let mut digits = [0; 2];
    for octet in octets {
        let _ = hex::encode_to_slice(&[*octet], &mut digits);
        writer.write_all(&digits)?;
    }
    Ok(())
}

fn write_datagram<W: Write>(peer: &str, octets: &[u8], writer: &mut W) -> io::Result<()>
    ensures { OnOk result (Appends (W.contents writer.old) (W.contents writer.new) (datagram_line peer.now octets.now)) }
{
    write!(writer, "tx {peer} ")?;
    write_digits(octets, writer)?;
    writer.write_all(b"\n")
}

fn write_retired<W: Write>(retired: &Retired, writer: &mut W) -> io::Result<()>
    ensures { OnOk result (Appends (W.contents writer.old) (W.contents writer.new) (retired_line retired.now)) }
{
    writeln!(
        writer,
        "retired {} {} {} {}",
        retired.name.number,
        retired.history.sent_count(),
        retired.history.acked_count(),
        retired.history.taken_count()
    )
}

fn write_refused<W: Write>(name: &str, writer: &mut W) -> io::Result<()>
    ensures { OnOk result (Appends (W.contents writer.old) (W.contents writer.new) (refused_line name.now)) }
{
    writeln!(writer, "refused {name}")
}

fn write_stage<W: Write>(number: u16, stage: Option<Stage>, writer: &mut W) -> io::Result<()>
    ensures { OnOk result (Appends (W.contents writer.old) (W.contents writer.new) (stage_line number stage)) }
{
    writeln!(writer, "leg {} {}", number, stage_name(stage))
}

impl<W: Write> Viewer for Printer<'_, W> {
    fn received(&mut self, datagram: ReceivedDatagram<'_>) -> Result<(), Stop> {
        match datagram.refusal {
            Some(refusal) => viewer_result(write_refused(refusal_name(refusal), self.writer)),
            None => Ok(()),
        }
    }

    fn refused(&mut self, _moment: u64, name: &'static str) -> Result<(), Stop> {
        viewer_result(write_refused(name, self.writer))
    }

    fn sent(&mut self, _moment: u64, peer: PeerOfPlan<'_>, octets: &[u8]) -> Result<(), Stop> {
        viewer_result(write_datagram(peer.name, octets, self.writer))
    }

    fn retired(&mut self, _moment: u64, leg: &Retired) -> Result<(), Stop> {
        viewer_result(write_retired(leg, self.writer))
    }

    fn staged(&mut self, _moment: u64, number: u16, stage: Option<Stage>) -> Result<(), Stop> {
        viewer_result(write_stage(number, stage, self.writer))
    }

    fn settled(&mut self, accounts: &MediaAccounts) -> Result<(), Stop> {
        viewer_result(write_accounts(accounts, self.writer))
    }
}
