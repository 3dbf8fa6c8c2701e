//! A log with trips.
ghost use Rattle.std.specs.Prelude.{◌≡◌, ◌≤◌, ◌<◌, [], length, map, slice_get, Some, All, IfOk, IfErr, OnOk};
ghost use Rattle.ilk_base.specs.Inputs.{ForRefused};
ghost use Rattle.double_points.specs.Rows.{rows_of};
ghost use Rattle.log_replay.specs.declared.limits.TheConstants.{MOST_RECORDS};
ghost use Rattle.trip_replay.specs.TripRecords.{as_log, TripMayBeTold};
ghost use Rattle.trip_replay.specs.TripLogs.{TripTell, IsTripLog, IsFirstTripFault, IsTripLogFault};

use crate::event::TripLogEvent;
use crate::record::read_trip_record;
use csv::ByteRecord;
use double_points::Rows;
use ilk_base::{FILE_BYTES, SwitchId};
use log_replay::Log;
use reservation_core::{LogEvent, WorldEvent};
use station_graph::Station;
use std::alloc::Global;
use std::marker::Model;
use trip_core::TripEvent;

/// Why bytes gave no log with trips.
pub use ilk_base::InputFault as TripLogFault;

/// A log with trips, seen as the list of its events. It is made by `read_trip_log`, and has at most
/// `MOST_RECORDS`.
#[derive(Drop)]
pub struct TripLog {
    events: Vec<TripLogEvent>,
    // the same with each trip as the begin of a drive: the tests of a log's order and start make no difference
    plain: Log,
}

impl Model for TripLog {
    ghost use Rattle.std.specs.Prelude.{◌≡◌, ◌≤◌, List, length, map};
    ghost use Rattle.log_replay.specs.declared.limits.TheConstants.{MOST_RECORDS};
    ghost use Rattle.trip_replay.specs.declared.event.TripLogEvent.{TripLogEvent};
    ghost use Rattle.trip_replay.specs.TripRecords.{as_log};

    ghost Value = { List TripLogEvent };

    ghost view = { λ l. l.events.items };

    ghost invariant = { λ l. (length l.events.items ≤ MOST_RECORDS) × (l.plain ≡ map as_log l.events.items) };
}

impl TripLog {
    /// How many events there are, one for each record. At once; takes no memory.
    pub fn count(&self) -> u32
        ensures count { result ≡ length self.now }
        ensures few { length self.now ≤ MOST_RECORDS }
    {
        self.events.len() as u32
    }

    /// The event at this place, from 0: the one that the record with the next number says. At once; takes no
    /// memory.
    pub fn event(&self, i: u32) -> TripLogEvent
        requires { i < length self.now }
        ensures { slice_get self.now i ≡ Some result }
    {
        self.events[i as usize]
    }

    // The same log with each trip as the begin of a drive.
    pub(crate) fn plain(&self) -> &Log
        ensures { result.now ≡ map as_log self.now }
    {
        &self.plain
    }
}

// An event as one of a log without trips: a trip is, like the begin of a drive, something that happens to a switch.
fn as_log(event: TripLogEvent) -> LogEvent
    ensures { result ≡ as_log event }
{
    match event {
        TripLogEvent::At { switch, closed } => LogEvent::At { switch, closed },
        TripLogEvent::Step(TripEvent::Step(event)) => LogEvent::Step(event),
        TripLogEvent::Step(TripEvent::Trip(switch)) => LogEvent::Step(WorldEvent::Begin(switch)),
    }
}

// Adds to none the events of all records, and the same as those of a log without trips.
fn read_events(
    alloc: Global,
    station: &Station,
    bytes: &[u8],
    events: &mut Vec<TripLogEvent>,
    plain: &mut Vec<LogEvent>,
) -> Result<(), TripLogFault>
    requires events { events.old.items ≡ [] }
    requires plain { plain.old.items ≡ [] }
    ensures tell { OnOk result (TripTell station.now (rows_of bytes.now) events.new.items) }
    ensures plain { OnOk result (plain.new.items ≡ map as_log events.new.items) }
    ensures err { IfErr result (λ e. ForRefused e (IsFirstTripFault station.now (rows_of bytes.now))) }
{
    let mut rows = Rows::new(alloc, bytes);
    let mut row = ByteRecord::new(alloc);
    'records: while rows.next(&mut row)? {
        match read_trip_record(station, plain.as_slice(), &row) {
            Ok(event) => {
                events.push(event)?;
                plain.push(as_log(event))?;
            }
            Err(number) => return Err(TripLogFault::refused(number, events.len() as u32 + 1)),
        }
    }
    Ok(())
}

/// Reads a log with trips: that of `log_replay::read_log`, with one further record, `trip` and the path of a
/// breaker. Bytes are refused at their first record with a fault, as there; 2 also where the path of a `trip` is no
/// breaker's. Time and memory are those of `read_log`.
pub fn read_trip_log(
    alloc: Global,
    station: &Station,
    bytes: &[u8],
) -> Result<TripLog, TripLogFault>
    ensures ok { IfOk result (IsTripLog station.now bytes.now) }
    // What `replay_trips` asks for.
    ensures told { IfOk result (All (TripMayBeTold station.now)) }
    ensures err { IfErr result (λ e. ForRefused e (IsTripLogFault station.now bytes.now)) }
{
    if bytes.len() > FILE_BYTES {
        return Err(TripLogFault::refused(5, 0));
    }
    let mut events = Vec::new(alloc);
    let mut plain = Vec::new(alloc);
    match read_events(alloc, station, bytes, &mut events, &mut plain) {
        Ok(()) => {
            let plain = Log::of(plain);
            Ok(TripLog { events, plain })
        }
        Err(fault) => Err(fault),
    }
}
