//! The octets of metrics.
ghost use Rattle.std.specs.Prelude.{◌≡◌, ◌++◌, IfOk, OnOk, codes};
ghost use Rattle.std.specs.List.{flat_map};
ghost use Rattle.service_state.specs.Metrics.{text_octet, label_text, labels_text, sample_text};
ghost use Rattle.service_state.specs.Metrics.{help_line, type_line, family_text, scrape_head};
ghost use Rattle.service_state.specs.Spelling.{piece_text};

use crate::metrics::{Family, Kind, Label, Labels, Sample};
use std::alloc::{AllocError, Global};

// A piece of a line.
#[derive(Clone, Copy)]
enum Piece<'a> {
    Plain(&'a str),
    // The value of a label.
    Value(&'a str),
    // A help text.
    Help(&'a str),
}

// Adds an octet of a label's value, or of a help text, in which a quote needs no escape.
fn push_octet(octets: &mut Vec<u8>, octet: u8, is_value: bool) -> Result<(), AllocError>
    ensures { OnOk result (octets.new.items ≡ octets.old.items ++ text_octet is_value octet) }
{
    match (octet, is_value) {
        (b'\\', _) => octets.extend_from_slice(b"\\\\"),
        (b'\n', _) => octets.extend_from_slice(b"\\n"),
        (b'"', true) => octets.extend_from_slice(b"\\\""),
        _ => octets.extend_from_slice(&[octet]),
    }
}

fn push_text(octets: &mut Vec<u8>, text: &str, is_value: bool) -> Result<(), AllocError>
    ensures { OnOk result (octets.new.items ≡ octets.old.items ++ flat_map (text_octet is_value) text.now) }
{
    for octet in text.as_bytes() {
        push_octet(octets, *octet, is_value)?;
    }
    Ok(())
}

fn push_piece(octets: &mut Vec<u8>, piece: Piece<'_>) -> Result<(), AllocError>
    ensures { OnOk result (octets.new.items ≡ octets.old.items ++ piece_text piece.entry) }
{
    match piece {
        Piece::Plain(text) => octets.extend_from_slice(text.as_bytes()),
        Piece::Value(value) => push_text(octets, value, true),
        Piece::Help(help) => push_text(octets, help, false),
    }
}

fn push_pieces(octets: &mut Vec<u8>, pieces: &[Piece<'_>]) -> Result<(), AllocError>
    ensures { OnOk result (octets.new.items ≡ octets.old.items ++ flat_map piece_text pieces.now) }
{
    for piece in pieces {
        push_piece(octets, *piece)?;
    }
    Ok(())
}

fn push_label(octets: &mut Vec<u8>, label: Label<'_>) -> Result<(), AllocError>
    ensures { OnOk result (octets.new.items ≡ octets.old.items ++ label_text label.entry) }
{
    let (name, value) = (Piece::Plain(label.name), Piece::Value(label.value));
    push_pieces(
        octets,
        &[name, Piece::Plain("=\""), value, Piece::Plain("\"")],
    )
}

fn push_labels(octets: &mut Vec<u8>, labels: Labels<'_>) -> Result<(), AllocError>
    ensures { OnOk result (octets.new.items ≡ octets.old.items ++ labels_text labels.entry) }
{
    match labels {
        Labels::None => Ok(()),
        Labels::One(label) => {
            octets.extend_from_slice(b"{")?;
            push_label(octets, label)?;
            octets.extend_from_slice(b"}")
        }
        Labels::Two(first, second) => {
            octets.extend_from_slice(b"{")?;
            push_label(octets, first)?;
            octets.extend_from_slice(b",")?;
            push_label(octets, second)?;
            octets.extend_from_slice(b"}")
        }
    }
}

// Adds a sample's line: the name, the labels and the value.
fn push_line(
    octets: &mut Vec<u8>,
    name: &str,
    labels: Labels<'_>,
    end: &str,
) -> Result<(), AllocError>
    ensures { OnOk result (octets.new.items ≡ octets.old.items ++ (name.now ++ (labels_text labels.entry ++ end.now))) }
{
    octets.extend_from_slice(name.as_bytes())?;
    push_labels(octets, labels)?;
    octets.extend_from_slice(end.as_bytes())
}

fn push_sample(
    alloc: Global,
    octets: &mut Vec<u8>,
    name: &str,
    sample: &Sample<'_>,
) -> Result<(), AllocError>
    ensures { OnOk result (octets.new.items ≡ octets.old.items ++ sample_text name.now sample.now) }
{
    let end = format!(in alloc; " {}\n", sample.value)?;
    push_line(octets, name, sample.labels, &end)
}

fn push_samples(
    alloc: Global,
    octets: &mut Vec<u8>,
    name: &str,
    samples: &[Sample<'_>],
) -> Result<(), AllocError>
    ensures { OnOk result (octets.new.items ≡ octets.old.items ++ flat_map (sample_text name.now) samples.now) }
{
    for sample in samples {
        push_sample(alloc, octets, name, sample)?;
    }
    Ok(())
}

// Adds a comment line: a keyword, the name of a family, and its kind or help text.
fn push_comment<'x>(
    octets: &mut Vec<u8>,
    word: &'x str,
    name: &'x str,
    told: Piece<'x>,
) -> Result<(), AllocError>
    ensures { OnOk result (octets.new.items ≡ octets.old.items ++
        (word.now ++ (name.now ++ (codes " " ++ (piece_text told.entry ++ codes "\n"))))) }
{
    let (word, name) = (Piece::Plain(word), Piece::Plain(name));
    push_pieces(
        octets,
        &[word, name, Piece::Plain(" "), told, Piece::Plain("\n")],
    )
}

fn push_help_line<'x>(octets: &mut Vec<u8>, name: &'x str, help: &'x str) -> Result<(), AllocError>
    ensures { OnOk result (octets.new.items ≡ octets.old.items ++ help_line name.now help.now) }
{
    push_comment(octets, "# HELP ", name, Piece::Help(help))
}

fn push_type_line(octets: &mut Vec<u8>, name: &str, kind: Kind) -> Result<(), AllocError>
    ensures { OnOk result (octets.new.items ≡ octets.old.items ++ type_line name.now kind) }
{
    let kind = match kind {
        Kind::Counter => "counter",
        Kind::Gauge => "gauge",
    };
    push_comment(octets, "# TYPE ", name, Piece::Plain(kind))
}

/// Returns a family in the text form.
pub(crate) fn family_octets(alloc: Global, family: &Family<'_>) -> Result<Vec<u8>, AllocError>
    ensures { IfOk result (λ octets. octets.items ≡ family_text family.now) }
{
    let mut octets = Vec::new(alloc);
    push_help_line(&mut octets, family.name, family.help)?;
    push_type_line(&mut octets, family.name, family.kind)?;
    push_samples(alloc, &mut octets, family.name, family.samples)?;
    Ok(octets)
}

/// Returns the head of the answer to a scrape, with the octets of its body.
pub(crate) fn head_octets(alloc: Global, length: usize) -> Result<Vec<u8>, AllocError>
    ensures { IfOk result (λ octets. octets.items ≡ scrape_head length) }
{
    let head = format!(in alloc;
        "HTTP/1.1 200 OK\r\nContent-Type: text/plain; version=0.0.4\r\nContent-Length: {}\r\nConnection: close\r\n\r\n",
        length
    )?;
    Ok(head.into_bytes())
}
