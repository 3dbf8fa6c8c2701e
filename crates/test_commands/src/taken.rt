//! Each station that can be made is read, with its positions and its log.
ghost use Rattle.std.specs.Prelude.{◌≤◌};

use double_points::read_positions;
use log_replay::read_log;
use ssd_read::read_ssd;
use station_graph::Station;
use station_make::{LEAST_FEEDERS, MOST_FEEDERS, Made, make};
use std::alloc::Global;

// Whether the log is read, with so many records: fifteen for each feeder and ten more.
fn has_events(alloc: Global, station: &Station, made: &Made, feeders: u16) -> bool
    requires { feeders ≤ MOST_FEEDERS }
{
    match read_log(alloc, station, made.events.bytes()) {
        Ok(log) => log.count() == 15 * u32::from(feeders) + 10,
        Err(_) => false,
    }
}

// Whether what was read has as much of each kind as was made, counted by hand.
fn is_read(alloc: Global, station: &Station, made: &Made, feeders: u16) -> bool
    requires { feeders ≤ MOST_FEEDERS }
{
    station.switch_count() == 6 * feeders + 3
        && station.node_count() == 3 * feeders + 4
        && read_positions(alloc, station, made.positions.bytes()).is_ok()
        && has_events(alloc, station, made, feeders)
}

// Whether the drawing that was made is read so.
fn is_drawn(alloc: Global, made: &Made, feeders: u16) -> bool
    requires { feeders ≤ MOST_FEEDERS }
{
    match read_ssd(alloc, made.station.bytes()) {
        Ok(station) => is_read(alloc, &station, made, feeders),
        Err(_) => false,
    }
}

fn is_taken(alloc: Global, feeders: u8) -> bool
    requires least { LEAST_FEEDERS ≤ feeders }
    requires most { feeders ≤ MOST_FEEDERS }
{
    match make(alloc, feeders) {
        Ok(made) => is_drawn(alloc, &made, u16::from(feeders)),
        Err(_) => false,
    }
}

#[test]
fn each_number_of_feeders(rt: HostRuntime) {
    for feeders in LEAST_FEEDERS..MOST_FEEDERS + 1 {
        assert!(rt; is_taken(rt.alloc(), feeders));
    }
}
