//! The text of a report.
ghost use Rattle.std.specs.Prelude.{◌≡◌, ◌<◌, ◌≤◌, ◌++◌, ◌^◌, length, map, flat_map, codes, decimal, All, IfOk, OnOk};
ghost use Rattle.bay_protocol.specs.OutcomeLines.{outcome_lines, OutcomeFits};
ghost use Rattle.reservation_core.specs.Lines.{Message, messages, message, kind_of};
ghost use Rattle.reservation_core.specs.ReportLines.{bay_line, bay_lines, message_name, line_prefix, message_line};
ghost use Rattle.reservation_core.specs.ReportLines.{shown_lines, all_lines};
ghost use Rattle.log_replay.specs.Replay.{shown_at, ShownFits, last_line};
ghost use Rattle.log_replay.specs.declared.limits.TheConstants.{MOST_RECORDS};

use crate::limits::MOST_RECORDS;
use bay_frames::{Body, Frame};
use bay_protocol::is_bay;
use ilk_base::{BayId, Memory, Text};
use reservation_core::{NodeOutput, Which, WorldOutcome};
use station_graph::Station;
use std::alloc::Global;

// Appends `bay`, its number and its path, and the end of the line.
fn push_bay_line(text: &mut Text, bay: BayId, path: &str) -> Result<(), Memory>
    ensures { OnOk result (text.new ≡ text.old ++ (codes "bay " ++ decimal bay.0 ++ codes " " ++ path.now
        ++ codes "\n")) }
{
    text.push(b"bay ")?;
    text.push_decimal(usize::from(bay.0))?;
    text.push(b" ")?;
    text.push(path.as_bytes())?;
    text.push(b"\n")
}

// Appends the line of a part, if it is a bay.
fn push_bay(text: &mut Text, station: &Station, bay: BayId) -> Result<(), Memory>
    requires { bay.0 < length station.now.part_paths }
    ensures { OnOk result (text.new ≡ text.old ++ bay_line station.now bay.0) }
{
    if !is_bay(station, bay) {
        return Ok(());
    }
    push_bay_line(text, bay, station.part_path(bay))
}

// Appends the lines of all bays.
pub(crate) fn push_bays(text: &mut Text, station: &Station) -> Result<(), Memory>
    ensures { OnOk result (text.new ≡ text.old ++ bay_lines station.now) }
{
    for i in 0..station.part_count() {
        push_bay(text, station, BayId(i as u8))?;
    }
    Ok(())
}

// What a kind of message is called.
fn message_name(body: &Body) -> &'static [u8]
    ensures { result.now ≡ message_name (kind_of body.now) }
{
    match body {
        Body::Reserve => b"reserve",
        Body::Answer(_) => b"answer",
        Body::Busy { .. } => b"busy",
        Body::Query => b"query",
        Body::Over => b"over",
    }
}

// What the lines of a bay at a line of the log begin with.
fn prefix(alloc: Global, line: u32, bay: BayId) -> Result<Text, Memory>
    ensures { IfOk result (λ t. t ≡ line_prefix line bay.0) }
{
    let mut text = Text::new(alloc);
    text.push_decimal(line as usize)?;
    text.push(b" ")?;
    text.push_decimal(usize::from(bay.0))?;
    text.push(b" ")?;
    Ok(text)
}

// Appends `send N KIND TO R` and the end of the line.
fn push_sent(text: &mut Text, number: u32, frame: &Frame) -> Result<(), Memory>
    ensures { OnOk result (text.new ≡ text.old ++ (codes "send " ++ decimal number ++ codes " " ++ message_name
        (kind_of frame.now.body) ++ codes " " ++ decimal frame.now.to.0 ++ codes " " ++ decimal frame.now.round)
        ++ codes "\n") }
{
    text.push(b"send ")?;
    text.push_decimal(number as usize)?;
    text.push(b" ")?;
    text.push(message_name(&frame.body))?;
    text.push(b" ")?;
    text.push_decimal(usize::from(frame.to.0))?;
    text.push(b" ")?;
    text.push_decimal(frame.round as usize)?;
    text.push(b"\n")
}

// Appends the line of a message.
fn push_message(
    alloc: Global,
    text: &mut Text,
    line: u32,
    number: u32,
    frame: &Frame,
) -> Result<(), Memory>
    ensures { OnOk result (text.new ≡ text.old ++ message_line line (message number frame.now)) }
{
    text.push(prefix(alloc, line, frame.from)?.bytes())?;
    push_sent(text, number, frame)
}

// Appends the lines of messages, numbered from the first.
fn push_messages(
    alloc: Global,
    text: &mut Text,
    line: u32,
    first: u32,
    frames: &[Frame],
) -> Result<(), Memory>
    requires { All (λ (x : Message). x.number < 2 ^ 32) (messages first frames.now) }
    ensures { OnOk result (text.new ≡ text.old ++ flat_map (message_line line) (messages first frames.now)) }
{
    for i in 0..frames.len() {
        push_message(alloc, text, line, first + i as u32, &frames[i])?;
    }
    Ok(())
}

// Appends the lines of what a bay shows.
fn push_output(
    alloc: Global,
    text: &mut Text,
    station: &Station,
    line: u32,
    bay: BayId,
    first: u32,
    output: &NodeOutput,
) -> Result<(), Memory>
    requires outcome { OutcomeFits station.now output.now.outcome }
    requires numbers { All (λ (x : Message). x.number < 2 ^ 32) (messages first output.now.frames) }
    ensures { OnOk result (text.new ≡ text.old ++ (outcome_lines (line_prefix line bay.0) station.now output.now.outcome
        ++ flat_map (message_line line) (messages first output.now.frames))) }
{
    let prefix = prefix(alloc, line, bay)?;
    let lines = output.outcome.lines(alloc, station, prefix.bytes())?;
    text.push(lines.bytes())?;
    push_messages(alloc, text, line, first, output.frames.frames())
}

// Appends the lines of what is shown at a line of the log.
fn push_shown(
    alloc: Global,
    text: &mut Text,
    station: &Station,
    line: u32,
    outcome: &Option<WorldOutcome>,
) -> Result<(), Memory>
    requires { ShownFits station.now (shown_at outcome.now) }
    ensures { OnOk result (text.new ≡ text.old ++ shown_lines station.now line (shown_at outcome.now)) }
{
    match outcome {
        Some(WorldOutcome::Node { bay, first, output }) => {
            push_output(alloc, text, station, line, *bay, *first, output)
        }
        _ => Ok(()),
    }
}

// Appends the lines of what is shown at each line of the log.
pub(crate) fn push_all(
    alloc: Global,
    text: &mut Text,
    station: &Station,
    outcomes: &[Option<WorldOutcome>],
) -> Result<(), Memory>
    requires fits { All (ShownFits station.now) (map shown_at outcomes.now) }
    requires few { length outcomes.now ≤ MOST_RECORDS }
    ensures { OnOk result (text.new ≡ text.old ++ all_lines station.now (map shown_at outcomes.now)) }
{
    for i in 0..outcomes.len() {
        push_shown(alloc, text, station, i as u32 + 1, &outcomes[i])?;
    }
    Ok(())
}

// Appends the last line, unless a premise is broken.
pub(crate) fn push_last(
    text: &mut Text,
    broken: Option<(u32, Which)>,
    count: u32,
) -> Result<(), Memory>
    ensures { OnOk result (text.new ≡ text.old ++ last_line broken count) }
{
    if broken.is_some() {
        return Ok(());
    }
    text.push(b"done ")?;
    text.push_decimal(count as usize)?;
    text.push(b"\n")
}
