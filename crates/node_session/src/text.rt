//! The text of a step.
ghost use Rattle.std.specs.Prelude.{◌≡◌, ◌++◌, OnOk, IfOk};
ghost use Rattle.std.specs.List.{All, flat_map};
ghost use Rattle.bay_frames.specs.Row.{IsLawful};
ghost use Rattle.bay_protocol.specs.OutcomeLines.{OutcomeFits};
ghost use Rattle.node_session.specs.StepText.{bytes_line, keep_line, send_line, shown_text, output_text};

use bay_frames::Frame;
use bay_protocol::{Kept, NodeOutput};
use ilk_base::{Memory, Text};
use station_graph::Station;
use std::alloc::Global;

// Appends a line of the head and the bytes in hexadecimal digits.
fn push_bytes(alloc: Global, text: &mut Text, head: &[u8], bytes: &[u8]) -> Result<(), Memory>
    ensures { OnOk result (text.new ≡ text.old ++ bytes_line head.now bytes.now) }
{
    let digits = hex::encode(alloc, bytes)?;
    text.push(head)?;
    text.push(digits.as_bytes())?;
    text.push(b"\n")
}

// Appends the line of a record that is to be kept.
fn push_keep(alloc: Global, text: &mut Text, keep: Option<Kept>) -> Result<(), Memory>
    ensures { OnOk result (text.new ≡ text.old ++ keep_line keep) }
{
    match keep {
        Some(kept) => push_bytes(alloc, text, b"keep ", &kept.to_bytes()),
        None => Ok(()),
    }
}

// Appends the line of a frame.
fn push_frame(alloc: Global, text: &mut Text, frame: &Frame) -> Result<(), Memory>
    requires { IsLawful frame.now }
    ensures { OnOk result (text.new ≡ text.old ++ send_line frame.now) }
{
    let mut row = [0; 64];
    let len = frame.encode(&mut row);
    push_bytes(alloc, text, b"send ", &row[..len])
}

// Appends the lines of the frames.
fn push_frames(alloc: Global, text: &mut Text, frames: &[Frame]) -> Result<(), Memory>
    requires { All IsLawful frames.now }
    ensures { OnOk result (text.new ≡ text.old ++ flat_map send_line frames.now) }
{
    for frame in frames {
        push_frame(alloc, text, frame)?;
    }
    Ok(())
}

// Appends what a step shows and sends.
fn push_shown(
    alloc: Global,
    text: &mut Text,
    station: &Station,
    output: &NodeOutput,
) -> Result<(), Memory>
    requires lawful { All IsLawful output.now.frames }
    requires outcome { OutcomeFits station.now output.now.outcome }
    ensures { OnOk result (text.new ≡ text.old ++ shown_text station.now output.now) }
{
    let lines = output.outcome.lines(alloc, station, b"")?;
    text.push(lines.bytes())?;
    push_frames(alloc, text, output.frames.frames())
}

/// What a node writes of a step beside its record: the lines of the outcome, and a line `send HEX` for each frame
/// (docs/FORMATS.md). Time and memory: the text.
pub fn shown_text(alloc: Global, station: &Station, output: &NodeOutput) -> Result<Text, Memory>
    requires lawful { All IsLawful output.now.frames }
    requires outcome { OutcomeFits station.now output.now.outcome }
    ensures { IfOk result (λ text. text ≡ shown_text station.now output.now) }
{
    let mut text = Text::new(alloc);
    push_shown(alloc, &mut text, station, output)?;
    Ok(text)
}

// What a node writes of a step: its record where it changed, and what it shows and sends.
pub(crate) fn output_text(
    alloc: Global,
    station: &Station,
    output: &NodeOutput,
) -> Result<Text, Memory>
    requires lawful { All IsLawful output.now.frames }
    requires outcome { OutcomeFits station.now output.now.outcome }
    ensures { IfOk result (λ text. text ≡ output_text station.now output.now) }
{
    let mut text = Text::new(alloc);
    push_keep(alloc, &mut text, output.keep)?;
    push_shown(alloc, &mut text, station, output)?;
    Ok(text)
}
