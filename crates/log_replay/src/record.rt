//! One record of a log.
ghost use Rattle.std.specs.Prelude.{◌≡◌, ◌<◌, ◌↔◌, length, IfOk, IfErr, IsTrue};
ghost use Rattle.csv.specs.Records.{fields_of};
ghost use Rattle.log_replay.specs.Records.{RecordSays, has_step, is_told_of, tell_of, is_again};
ghost use Rattle.log_replay.specs.RecordFaults.{record_row, FieldFault, KindFault, RecordFault, IsOfKind, IsLate};
ghost use Rattle.log_replay.specs.declared.limits.TheConstants.{MOST_RECORDS};
ghost use Rattle.log_replay.specs.Log.{IsText, MayFollow};
ghost use Rattle.log_replay.specs.declared.kinds.RecordKind.TheVariants as kind;

use crate::fields::{
    bay_at, bytes_at, direction_at, field, message_at, position_at, switch_at, texts, word_at,
};
use crate::kinds::{RecordKind, kind_named};
use crate::limits::MOST_RECORDS;
use csv::ByteRecord;
use ilk_base::{Op, SwitchId};
use reservation_core::{LogEvent, WorldEvent};
use station_graph::Station;

// What a record `at` says, or the number of its fault.
fn first_position(station: &Station, path: &str, word: &str) -> Result<LogEvent, u8>
    ensures ok { IfOk result (RecordSays station.now (record_row kind.At path.now word.now)) }
    ensures err { IfErr result (FieldFault station.now kind.At path.now word.now) }
{
    let switch = switch_at(station, path)?;
    let closed = position_at(word)?;
    Ok(LogEvent::At { switch, closed })
}

// What a record `command` says, or the number of its fault.
fn command(station: &Station, path: &str, word: &str) -> Result<LogEvent, u8>
    ensures ok { IfOk result (RecordSays station.now (record_row kind.Command path.now word.now)) }
    ensures err { IfErr result (FieldFault station.now kind.Command path.now word.now) }
{
    let switch = switch_at(station, path)?;
    let direction = direction_at(word)?;
    Ok(LogEvent::Step(WorldEvent::Command(Op { switch, direction })))
}

// What a record `sense` says, or the number of its fault.
fn sense(station: &Station, path: &str, word: &str) -> Result<LogEvent, u8>
    ensures ok { IfOk result (RecordSays station.now (record_row kind.Sense path.now word.now)) }
    ensures err { IfErr result (FieldFault station.now kind.Sense path.now word.now) }
{
    let switch = switch_at(station, path)?;
    let word = word_at(word)?;
    Ok(LogEvent::Step(WorldEvent::Sense { switch, word }))
}

// What a record `part` says, or the number of its fault.
fn part(station: &Station, number: &str, count: &str) -> Result<LogEvent, u8>
    ensures ok { IfOk result (RecordSays station.now (record_row kind.Part number.now count.now)) }
    ensures err { IfErr result (FieldFault station.now kind.Part number.now count.now) }
{
    let message = message_at(number)?;
    let bytes = bytes_at(count)?;
    Ok(LogEvent::Step(WorldEvent::Part { message, bytes }))
}

// What a record `deliver` says, or the number of its fault.
fn deliver(station: &Station, number: &str, rest: &str) -> Result<LogEvent, u8>
    ensures ok { IfOk result (RecordSays station.now (record_row kind.Deliver number.now rest.now)) }
    ensures err { IfErr result (FieldFault station.now kind.Deliver number.now rest.now) }
{
    let message = message_at(number)?;
    Ok(LogEvent::Step(WorldEvent::Deliver { message }))
}

// What a record `begin` says, or the number of its fault.
fn begin(station: &Station, path: &str, rest: &str) -> Result<LogEvent, u8>
    ensures ok { IfOk result (RecordSays station.now (record_row kind.Begin path.now rest.now)) }
    ensures err { IfErr result (FieldFault station.now kind.Begin path.now rest.now) }
{
    let switch = switch_at(station, path)?;
    Ok(LogEvent::Step(WorldEvent::Begin(switch)))
}

// What a record `end` says, or the number of its fault.
fn end(station: &Station, path: &str, rest: &str) -> Result<LogEvent, u8>
    ensures ok { IfOk result (RecordSays station.now (record_row kind.End path.now rest.now)) }
    ensures err { IfErr result (FieldFault station.now kind.End path.now rest.now) }
{
    let switch = switch_at(station, path)?;
    Ok(LogEvent::Step(WorldEvent::End(switch)))
}

// What a record `cut` says, or the number of its fault.
fn cut(station: &Station, path: &str, rest: &str) -> Result<LogEvent, u8>
    ensures ok { IfOk result (RecordSays station.now (record_row kind.Cut path.now rest.now)) }
    ensures err { IfErr result (FieldFault station.now kind.Cut path.now rest.now) }
{
    let switch = switch_at(station, path)?;
    Ok(LogEvent::Step(WorldEvent::Cut(switch)))
}

// What a record `tick` says, or the number of its fault.
fn tick(station: &Station, path: &str, rest: &str) -> Result<LogEvent, u8>
    ensures ok { IfOk result (RecordSays station.now (record_row kind.Tick path.now rest.now)) }
    ensures err { IfErr result (FieldFault station.now kind.Tick path.now rest.now) }
{
    let bay = bay_at(station, path)?;
    Ok(LogEvent::Step(WorldEvent::Tick(bay)))
}

// What a record `withdraw` says, or the number of its fault.
fn withdraw(station: &Station, path: &str, rest: &str) -> Result<LogEvent, u8>
    ensures ok { IfOk result (RecordSays station.now (record_row kind.Withdraw path.now rest.now)) }
    ensures err { IfErr result (FieldFault station.now kind.Withdraw path.now rest.now) }
{
    let bay = bay_at(station, path)?;
    Ok(LogEvent::Step(WorldEvent::Withdraw(bay)))
}

// What a record `restart` says, or the number of its fault.
fn restart(station: &Station, path: &str, rest: &str) -> Result<LogEvent, u8>
    ensures ok { IfOk result (RecordSays station.now (record_row kind.Restart path.now rest.now)) }
    ensures err { IfErr result (FieldFault station.now kind.Restart path.now rest.now) }
{
    let bay = bay_at(station, path)?;
    Ok(LogEvent::Step(WorldEvent::Restart(bay)))
}

// What a record of the kind says by its fields after the first, or the number of their fault. The last of
// them is empty where the kind has but one.
fn event_of(station: &Station, kind: RecordKind, first: &str, second: &str) -> Result<LogEvent, u8>
    ensures ok { IfOk result (RecordSays station.now (record_row kind first.now second.now)) }
    ensures err { IfErr result (FieldFault station.now kind first.now second.now) }
{
    match kind {
        RecordKind::At => first_position(station, first, second),
        RecordKind::Command => command(station, first, second),
        RecordKind::Sense => sense(station, first, second),
        RecordKind::Begin => begin(station, first, second),
        RecordKind::End => end(station, first, second),
        RecordKind::Deliver => deliver(station, first, second),
        RecordKind::Tick => tick(station, first, second),
        RecordKind::Withdraw => withdraw(station, first, second),
        RecordKind::Restart => restart(station, first, second),
        RecordKind::Part => part(station, first, second),
        RecordKind::Cut => cut(station, first, second),
    }
}

// Whether something has happened in these events.
fn has_step(before: &[LogEvent]) -> bool
    ensures { result ≡ has_step before.now }
{
    before.iter().any(|e| matches!(e, LogEvent::Step(_)))
}

// Whether a record of the kind is late after these events.
fn is_late(before: &[LogEvent], kind: RecordKind) -> bool
    ensures { IsTrue result ↔ IsLate before.now kind }
{
    match kind {
        RecordKind::At => has_step(before),
        _ => false,
    }
}

// Whether the event tells where the switch stands at first.
fn is_told_of(event: &LogEvent, switch: SwitchId) -> bool
    ensures { result ≡ is_told_of switch.0 event.now }
{
    match event {
        LogEvent::At { switch: told, .. } => told.0 == switch.0,
        LogEvent::Step(_) => false,
    }
}

// Whether these events tell where the switch stands at first.
fn tell_of(before: &[LogEvent], switch: SwitchId) -> bool
    ensures { result ≡ tell_of switch.0 before.now }
{
    before.iter().any(|e| is_told_of(e, switch))
}

// Whether the event tells again where a switch stands at first.
fn is_again(before: &[LogEvent], event: LogEvent) -> bool
    ensures { result ≡ is_again before.now event }
{
    match event {
        LogEvent::At { switch, .. } => tell_of(before, switch),
        LogEvent::Step(_) => false,
    }
}

// What a record of the kind says, or the number of its fault, after these events.
fn read_of_kind(
    station: &Station,
    before: &[LogEvent],
    kind: RecordKind,
    row: &ByteRecord,
) -> Result<LogEvent, u8>
    requires { IsOfKind (fields_of row.now) kind }
    ensures ok { IfOk result (RecordSays station.now (fields_of row.now)) }
    ensures text { IfOk result (λ _. IsText (fields_of row.now)) }
    ensures follows { IfOk result (MayFollow before.now) }
    ensures err { IfErr result (KindFault station.now before.now kind (fields_of row.now)) }
{
    let Some((first, second)) = texts(kind, row) else {
        return Err(1);
    };
    if is_late(before, kind) {
        return Err(7);
    }
    let event = event_of(station, kind, first, second)?;
    // Its clause says that the station is one; it does nothing.
    station.is_station();
    if is_again(before, event) {
        return Err(4);
    }
    Ok(event)
}

/// What a record says after these events, or the number of the first test that it fails: 9 there were
/// `MOST_RECORDS`; 6 its first field names no kind; 1 it has not the form of its kind; 7 it is an `at` after
/// something has happened; 2 its path is unknown; 3 its word is none; 4 it is an `at` of a switch that was
/// told of; 8 its numbers are none. Time: the record; for an `at` also the events. Takes no memory.
pub fn read_record(station: &Station, before: &[LogEvent], row: &ByteRecord) -> Result<LogEvent, u8>
    ensures ok { IfOk result (RecordSays station.now (fields_of row.now)) }
    ensures text { IfOk result (λ _. IsText (fields_of row.now)) }
    ensures follows { IfOk result (MayFollow before.now) }
    ensures few { IfOk result (λ _. length before.now < MOST_RECORDS) }
    ensures err { IfErr result (RecordFault station.now before.now (fields_of row.now)) }
{
    if before.len() >= MOST_RECORDS {
        return Err(9);
    }
    let Some(kind) = kind_named(field(row, 0)) else {
        return Err(6);
    };
    read_of_kind(station, before, kind, row)
}
