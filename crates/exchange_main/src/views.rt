//! The views of a replay, as commands request them.
use crate::both_of;
use clap::ArgMatches;
use exchange_commands::{LadderForm, ReplayFiles, write_capture, write_ladder, write_records};
use std::alloc::Global;
use std::io;
use std::rt::Files;
use std::sync::Wait;

/// The views of a replay.
#[derive(Clone, Copy)]
pub(crate) enum View {
    Ladder,
    Capture,
    Records,
}

// Returns the form of a ladder.
fn ladder_form(options: &ArgMatches<'_>) -> LadderForm {
    if options.get_flag("text") {
        LadderForm::Text
    } else {
        LadderForm::Svg
    }
}

// Returns the leg whose ladder is drawn, if only one is wanted.
fn ladder_leg(options: &ArgMatches<'_>) -> Option<u16> {
    u16::try_from(options.get_one::<u32>("leg")?).ok()
}

/// Writes a view of the replay of the plan and of the script of a command.
pub(crate) fn view_files<R: Files + Print + Eprint + Alloc + Wait>(
    rt: &R,
    alloc: Global,
    view: View,
    options: &ArgMatches<'_>,
) -> u8 {
    let (Some(plan), Some(script)) = (options.get_str("plan"), options.get_str("script")) else {
        return 1;
    };
    match both_of(rt, plan, script) {
        Some((plan, script)) => {
            let files = ReplayFiles {
                plan: &plan,
                script: &script,
            };
            write_view(rt, alloc, view, options, files)
        }
        None => 1,
    }
}

fn write_view<R: Print + Eprint + Wait>(
    rt: &R,
    alloc: Global,
    view: View,
    options: &ArgMatches<'_>,
    files: ReplayFiles<'_>,
) -> u8 {
    let writer = &mut io::writer(rt);
    match view {
        View::Ladder => {
            let (leg, form) = (ladder_leg(options), ladder_form(options));
            write_ladder(rt, alloc, files, leg, form, writer)
        }
        View::Capture => write_capture(rt, alloc, files, writer),
        View::Records => write_records(rt, alloc, files, writer),
    }
}
