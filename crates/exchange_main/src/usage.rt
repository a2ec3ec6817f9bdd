//! The usage of the program, as the table of its commands gives it.
use crate::command_line::{COMMANDS, CommandRow, Row, Taken};
use std::fmt::{Display, Formatter, Result, Write};

/// The usage: a line for each command with its words and options; `check`, `replay` and `serve` share the first.
#[derive(Clone, Copy, Drop)]
pub(crate) struct Usage;

impl Display for Usage {
    fn fmt<W: Write>(&self, f: &mut Formatter<W>) -> Result {
        write_commands(f, true)?;
        write_commands(f, false)
    }
}

// Returns whether a command is on the first line.
fn is_first(name: &str) -> bool {
    matches!(name, "check" | "replay" | "serve")
}

// Returns the text in front of a command.
fn lead(name: &str) -> &'static str {
    match name {
        "check" => "usage: exchange_main ",
        "replay" | "serve" => " | ",
        _ => "\n       exchange_main ",
    }
}

// Writes the commands of the first line, or those of the other lines.
fn write_commands<W: Write>(f: &mut Formatter<W>, are_first: bool) -> Result {
    for row in &COMMANDS {
        if is_first(row.0) == are_first {
            f.write_str(lead(row.0))?;
            write_command(f, row)?;
        }
    }
    Ok(())
}

// Writes a command with its words and options.
fn write_command<W: Write>(f: &mut Formatter<W>, row: &CommandRow) -> Result {
    let (name, _, rows) = *row;
    f.write_str(name)?;
    for row in rows {
        f.write_str(" ")?;
        write_argument(f, row)?;
    }
    Ok(())
}

// Writes a word or an option with its value.
fn write_argument<W: Write>(f: &mut Formatter<W>, row: &Row) -> Result {
    let (name, taken, help) = *row;
    match taken {
        Taken::Word => write!(f, "<{name}>"),
        Taken::Words => f.write_str(help),
        Taken::Flag => write!(f, "[--{name}]"),
        Taken::Value(value) | Taken::Number(value, _, _, _) => {
            write!(f, "[--{name} <")?;
            write_lower(f, value)?;
            f.write_str(">]")
        }
        Taken::OneOf(_, _, values) => {
            write!(f, "[--{name} ")?;
            write_values(f, values)?;
            f.write_str("]")
        }
    }
}

// Writes a value's name in lower case.
fn write_lower<W: Write>(f: &mut Formatter<W>, name: &str) -> Result {
    for letter in name.chars() {
        f.write_char(letter.to_ascii_lowercase())?;
    }
    Ok(())
}

// Writes the values of a list.
fn write_values<W: Write>(f: &mut Formatter<W>, values: &[&str]) -> Result {
    let mut separator = "";
    for value in values {
        write!(f, "{separator}{value}")?;
        separator = "|";
    }
    Ok(())
}
