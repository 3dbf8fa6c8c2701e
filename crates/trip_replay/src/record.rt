//! One record of a log with trips.
ghost use Rattle.std.specs.Prelude.{◌≡◌, ◌≢◌, ◌<◌, ◌↔◌, ℕ, length, IfOk, IfErr, IsTrue};
ghost use Rattle.ilk_base.specs.declared.words.SwitchId.{SwitchId as Switch};
ghost use Rattle.csv.specs.Records.{fields_of};
ghost use Rattle.station_graph.specs.Diagram.{switch_path};
ghost use Rattle.log_replay.specs.Log.{IsText, MayFollow};
ghost use Rattle.log_replay.specs.RecordFaults.{field as field_at};
ghost use Rattle.log_replay.specs.declared.limits.TheConstants.{MOST_RECORDS};
ghost use Rattle.trip_core.specs.Trips.{IsBreaker};
ghost use Rattle.trip_replay.specs.TripRecords.{as_log, as_trip, TripSays, IsTripRow, TripForm, TripFault};
ghost use Rattle.trip_replay.specs.TripRecords.{TripRecordFault};

use crate::event::TripLogEvent;
use csv::ByteRecord;
use double_points::text_of;
use ilk_base::{Kind, SwitchId};
use log_replay::{MOST_RECORDS, field, read_record};
use reservation_core::LogEvent;
use station_graph::Station;
use trip_core::TripEvent;

// Whether a switch is a breaker.
fn is_breaker(station: &Station, switch: SwitchId) -> bool
    requires { switch.0 < length station.now.switches }
    ensures { IsTrue result ↔ IsBreaker station.now switch.0 }
{
    station.switch(switch).kind == Kind::Breaker
}

// The breaker with this path, or 2.
fn breaker_at(station: &Station, path: &str) -> Result<SwitchId, u8>
    ensures path { IfOk result (λ i. path.now ≡ switch_path station.now i.0) }
    ensures breaker { IfOk result (λ i. IsBreaker station.now i.0) }
    ensures none { IfErr result (λ n. ((i : ℕ) → IsBreaker station.now i → path.now ≢ switch_path station.now i) ×
        (n ≡ 2)) }
{
    // Its clause says that the station is one; it does nothing.
    station.is_station();
    match station.find_switch(path) {
        Some(switch) if is_breaker(station, switch) => Ok(switch),
        _ => Err(2),
    }
}

// Whether the record is a `trip`.
fn is_trip(row: &ByteRecord) -> bool
    ensures { IsTrue result ↔ IsTripRow (fields_of row.now) }
{
    field(row, 0) == b"trip".as_slice()
}

// What a record `trip` says, or the number of its fault.
fn trip(station: &Station, row: &ByteRecord) -> Result<TripLogEvent, u8>
    requires { IsTripRow (fields_of row.now) }
    ensures ok { IfOk result (TripSays station.now (fields_of row.now)) }
    ensures text { IfOk result (λ _. IsText (fields_of row.now)) }
    ensures is_trip { IfOk result (λ e. (i : Switch) × (e ≡ TripLogEvent.Step (TripEvent.Trip i))) }
    ensures err { IfErr result (TripFault station.now (fields_of row.now)) }
{
    let Some(path) = text_of(field(row, 1)) else {
        return Err(1);
    };
    if row.len() != 2 {
        return Err(1);
    }
    match breaker_at(station, path) {
        Ok(switch) => Ok(TripLogEvent::Step(TripEvent::Trip(switch))),
        Err(number) => Err(number),
    }
}

// An event of a log without trips.
fn as_trip(event: LogEvent) -> TripLogEvent
    ensures { result ≡ as_trip event }
{
    match event {
        LogEvent::At { switch, closed } => TripLogEvent::At { switch, closed },
        LogEvent::Step(event) => TripLogEvent::Step(TripEvent::Step(event)),
    }
}

// What a record says after these events, or the number of the first test that it fails.
pub(crate) fn read_trip_record(
    station: &Station,
    before: &[LogEvent],
    row: &ByteRecord,
) -> Result<TripLogEvent, u8>
    ensures ok { IfOk result (TripSays station.now (fields_of row.now)) }
    ensures text { IfOk result (λ _. IsText (fields_of row.now)) }
    ensures follows { IfOk result (λ e. MayFollow before.now (as_log e)) }
    ensures few { IfOk result (λ _. length before.now < MOST_RECORDS) }
    ensures err { IfErr result (TripRecordFault station.now before.now (fields_of row.now)) }
{
    if is_trip(row) {
        if before.len() >= MOST_RECORDS {
            return Err(9);
        }
        return trip(station, row);
    }
    match read_record(station, before, row) {
        Ok(event) => Ok(as_trip(event)),
        Err(number) => Err(number),
    }
}
