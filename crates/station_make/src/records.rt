//! The positions of the station, and the log.
ghost use Rattle.std.specs.Prelude.{◌≡◌, ◌++◌, ◌+◌, ◌≤◌, [], ◌∷◌, map, codes, OnOk, IfOk};
ghost use Rattle.std.specs.List.{range_with_len};
ghost use Rattle.station_make.specs.PositionsText.{lines_text, position_record};
ghost use Rattle.station_make.specs.EventsText.{deliver_record, events_of, moved_record};

use crate::equipment::{Bay, Designation, Switch};
use crate::limits::MOST_FEEDERS;
use crate::names::{position_word, push_path_in};
use ilk_base::{Memory, Text};
use std::alloc::Global;

// Appends the record of a switch and its position, behind this front.
fn push_position(text: &mut Text, front: &[u8], switch: Switch) -> Result<(), Memory>
    ensures { OnOk result (text.new ≡ text.old ++ front.now ++ position_record switch ++ codes "\n") }
{
    text.push(front)?;
    push_path_in(text, switch.bay, switch.designation)?;
    text.push(b",")?;
    text.push(position_word(switch.is_on))?;
    text.push(b"\n")
}

// Appends the records of these switches and their positions, each behind this front.
fn push_positions(text: &mut Text, front: &[u8], switches: &[Switch]) -> Result<(), Memory>
    ensures { OnOk result (text.new ≡ text.old ++ lines_text (map (λ s. front.now ++ position_record s) switches.now)) }
{
    for switch in switches {
        push_position(text, front, *switch)?;
    }
    Ok(())
}

// Appends the record that a message is delivered.
fn push_deliver(text: &mut Text, number: u8) -> Result<(), Memory>
    ensures { OnOk result (text.new ≡ text.old ++ deliver_record number ++ codes "\n") }
{
    text.push(b"deliver,")?;
    text.push_decimal(usize::from(number))?;
    text.push(b"\n")
}

// Appends the records that messages in a row are delivered, so many from the first.
fn push_delivers(text: &mut Text, first: u8, count: u8) -> Result<(), Memory>
    requires { first + count ≤ 256 }
    ensures { OnOk result (text.new ≡ text.old ++ lines_text (map deliver_record (range_with_len first count))) }
{
    for i in 0..count {
        push_deliver(text, first + i)?;
    }
    Ok(())
}

// Appends a record of the switch that is moved, with these texts before its path and behind it.
fn push_moved(text: &mut Text, front: &[u8], back: &[u8]) -> Result<(), Memory>
    ensures { OnOk result (text.new ≡ text.old ++ lines_text (moved_record front.now back.now ∷ [])) }
{
    text.push(front)?;
    push_path_in(text, Bay::Feeder(1), Designation::Qb2)?;
    text.push(back)?;
    text.push(b"\n")
}

// The positions of these switches.
pub(crate) fn positions(alloc: Global, switches: &[Switch]) -> Result<Text, Memory>
    ensures { IfOk result (λ t. t ≡ lines_text (map position_record switches.now)) }
{
    let mut text = Text::new(alloc);
    push_positions(&mut text, b"", switches)?;
    Ok(text)
}

// The log for the station with these switches and so many feeders.
pub(crate) fn events(alloc: Global, feeders: u8, switches: &[Switch]) -> Result<Text, Memory>
    requires { feeders ≤ MOST_FEEDERS }
    ensures { IfOk result (λ t. t ≡ lines_text (events_of feeders switches.now)) }
{
    let mut text = Text::new(alloc);
    push_positions(&mut text, b"at,", switches)?;
    push_positions(&mut text, b"sense,", switches)?;
    push_moved(&mut text, b"command,", b",close")?;
    push_delivers(&mut text, 1, 2 * feeders)?;
    push_moved(&mut text, b"begin,", b"")?;
    push_moved(&mut text, b"end,", b"")?;
    push_moved(&mut text, b"sense,", b",on")?;
    push_delivers(&mut text, 2 * feeders + 1, feeders)?;
    Ok(text)
}
