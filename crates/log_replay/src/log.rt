//! A log.
ghost use Rattle.std.specs.Prelude.{◌≡◌, ◌≤◌, ◌<◌, [], length, slice_get, Some, All, IfOk, IfErr, OnOk};
ghost use Rattle.double_points.specs.Rows.{rows_of};
ghost use Rattle.log_replay.specs.Records.{MayBeTold};
ghost use Rattle.log_replay.specs.Log.{Tell, IsLog, IsFirstRecordFault, IsLogFault};
ghost use Rattle.ilk_base.specs.Inputs.{ForRefused};
ghost use Rattle.log_replay.specs.declared.limits.TheConstants.{MOST_RECORDS};

use crate::limits::MOST_RECORDS;
use crate::record::read_record;
use csv::ByteRecord;
use double_points::Rows;
use ilk_base::FILE_BYTES;
use reservation_core::LogEvent;
use station_graph::Station;
use std::alloc::Global;
use std::marker::Model;

/// Why bytes gave no log.
pub use ilk_base::InputFault as LogFault;

/// A log of an operation, seen as the list of its events. It is made by `read_log`, and has at most
/// `MOST_RECORDS`.
#[derive(Drop)]
pub struct Log {
    events: Vec<LogEvent>,
}

impl Model for Log {
    ghost use Rattle.std.specs.Prelude.{List, length, ◌≤◌};
    ghost use Rattle.reservation_core.specs.declared.values.LogEvent.{LogEvent};
    ghost use Rattle.log_replay.specs.declared.limits.TheConstants.{MOST_RECORDS};

    ghost Value = { List LogEvent };

    ghost view = { λ l. l.events.items };

    ghost invariant = { λ l. length l.events.items ≤ MOST_RECORDS };
}

impl Log {
    /// The log of these events. At once; takes no memory.
    pub fn of(events: Vec<LogEvent>) -> Log
        requires { length events.items ≤ MOST_RECORDS }
        ensures { result ≡ events.items }
    {
        Log { events }
    }

    /// How many events there are, one for each record. At once; takes no memory.
    pub fn count(&self) -> u32
        ensures count { result ≡ length self.now }
        ensures few { length self.now ≤ MOST_RECORDS }
    {
        self.events.len() as u32
    }

    /// The event at this place, from 0: the one that the record with the next number says. At once; takes no
    /// memory.
    pub fn event(&self, i: u32) -> LogEvent
        requires { i < length self.now }
        ensures { slice_get self.now i ≡ Some result }
    {
        self.events[i as usize]
    }
}

// Adds the events of all records to none.
fn read_events(
    alloc: Global,
    station: &Station,
    bytes: &[u8],
    events: &mut Vec<LogEvent>,
) -> Result<(), LogFault>
    requires { events.old.items ≡ [] }
    ensures tell { OnOk result (Tell station.now (rows_of bytes.now) events.new.items) }
    ensures err { IfErr result (λ e. ForRefused e (IsFirstRecordFault station.now (rows_of bytes.now))) }
{
    let mut rows = Rows::new(alloc, bytes);
    let mut row = ByteRecord::new(alloc);
    'records: while rows.next(&mut row)? {
        match read_record(station, events.as_slice(), &row) {
            Ok(event) => events.push(event)?,
            Err(number) => return Err(LogFault::refused(number, events.len() as u32 + 1)),
        }
    }
    Ok(())
}

/// Reads a log: CSV records as docs/FORMATS.md says, without a header, blank lines skipped. Bytes are refused
/// at their first record with a fault, with the fault's number and the record's, from 1. In one record the
/// faults come in this order: 9 it comes after `MOST_RECORDS` records; 6 its first field is no kind; 1 it has
/// not as many fields as its kind, or one that is not UTF-8; 7 an `at` after a record of another kind; 2 no
/// switch, or no bay, has the path; 3 the last field is no word of the kind; 4 a second `at` of a switch; 8
/// the number of a message, or a count of bytes, is not decimal and in range. 5, with line 0 and before all
/// others: more than 8,388,608 bytes.
///
/// Time: the bytes, one look-up by hash for each record, and for the records `at` the square of their
/// number, which is at most that of the switches. Memory: the events and one record.
pub fn read_log(alloc: Global, station: &Station, bytes: &[u8]) -> Result<Log, LogFault>
    ensures ok { IfOk result (IsLog station.now bytes.now) }
    // What `replay` asks for.
    ensures told { IfOk result (All (MayBeTold station.now)) }
    ensures err { IfErr result (λ e. ForRefused e (IsLogFault station.now bytes.now)) }
{
    if bytes.len() > FILE_BYTES {
        return Err(LogFault::refused(5, 0));
    }
    let mut events = Vec::new(alloc);
    match read_events(alloc, station, bytes, &mut events) {
        Ok(()) => Ok(Log { events }),
        Err(fault) => Err(fault),
    }
}
