//! The contents that commands are given in files, and how each is read.
use crate::content::Content;
use crate::end::End;
use double_points::{Readings, read_positions};
use equation_audit::{Blocks, read_blocks};
use ilk_base::InputRefusal;
use log_replay::{Log, read_log};
use station_graph::{Station, Vector};
use std::alloc::Global;
use switching_orders::{Order, certain_positions, read_order};
use trip_replay::{TripLog, read_trip_log};

// Positions.
impl Content for Readings {
    ghost use Rattle.double_points.specs.Words.{AreWords};
    ghost use Rattle.interlock_cli.specs.Formats.{Positions};

    ghost format = { Positions };

    ghost accepted = { λ d readings. readings };

    ghost Fits = { AreWords };

    fn judge(alloc: Global, station: &Station, bytes: &[u8]) -> Result<Readings, End> {
        Ok(read_positions(alloc, station, bytes)?)
    }

    ghost of_file = { λ d. tt };
}

// Positions of which no word leaves one open.
impl Content for Vector {
    ghost use Rattle.station_graph.specs.Alike.{IsVector};
    ghost use Rattle.interlock_cli.specs.Formats.{CertainPositions};

    ghost format = { CertainPositions };

    ghost accepted = { λ d vector. vector };

    ghost Fits = { IsVector };

    fn judge(alloc: Global, station: &Station, bytes: &[u8]) -> Result<Vector, End> {
        let readings = read_positions(alloc, station, bytes)?;
        match certain_positions(alloc, station, &readings)? {
            Some(start) => Ok(start),
            None => Err(End::Input(InputRefusal {
                number: 14,
                line: 0,
            })),
        }
    }

    ghost of_file = { λ d. tt };
}

// An order of switching.
impl Content for Order {
    ghost use Rattle.switching_orders.specs.OrderRuling.{AreOperations};
    ghost use Rattle.interlock_cli.specs.Formats.{OrderOf};

    ghost format = { OrderOf };

    ghost accepted = { λ d order. order };

    ghost Fits = { AreOperations };

    fn judge(alloc: Global, station: &Station, bytes: &[u8]) -> Result<Order, End> {
        Ok(read_order(alloc, station, bytes)?)
    }

    ghost of_file = { λ d. tt };
}

// Equations that were written by hand.
impl Content for Blocks {
    ghost use Rattle.equation_audit.specs.Equations.{AreOfStation};
    ghost use Rattle.interlock_cli.specs.Formats.{BlocksOf};

    ghost format = { BlocksOf };

    ghost accepted = { λ d blocks. blocks };

    ghost Fits = { AreOfStation };

    fn judge(alloc: Global, station: &Station, bytes: &[u8]) -> Result<Blocks, End> {
        // Its clause says that no two switches have one path; it does nothing.
        station.is_station();
        Ok(read_blocks(alloc, station, bytes)?)
    }

    ghost of_file = { λ d. tt };
}

// The log of an operation.
impl Content for Log {
    ghost use Rattle.std.specs.Prelude.{All};
    ghost use Rattle.log_replay.specs.Records.{MayBeTold};
    ghost use Rattle.interlock_cli.specs.Formats.{LogOf};

    ghost format = { LogOf };

    ghost accepted = { λ d log. log };

    ghost Fits = { λ d log. All (MayBeTold d) log };

    fn judge(alloc: Global, station: &Station, bytes: &[u8]) -> Result<Log, End> {
        // Its clause says that it is a station; it does nothing.
        station.is_station();
        Ok(read_log(alloc, station, bytes)?)
    }

    ghost of_file = { λ d. tt };
}

// The log of an operation in which breakers may trip.
impl Content for TripLog {
    ghost use Rattle.std.specs.Prelude.{All};
    ghost use Rattle.trip_replay.specs.TripRecords.{TripMayBeTold};
    ghost use Rattle.interlock_cli.specs.Formats.{TripLogOf};

    ghost format = { TripLogOf };

    ghost accepted = { λ d log. log };

    ghost Fits = { λ d log. All (TripMayBeTold d) log };

    fn judge(alloc: Global, station: &Station, bytes: &[u8]) -> Result<TripLog, End> {
        // Its clause says that it is a station; it does nothing.
        station.is_station();
        Ok(read_trip_log(alloc, station, bytes)?)
    }

    ghost of_file = { λ d. tt };
}
