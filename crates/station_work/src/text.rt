//! The four lines.
ghost use Rattle.std.specs.Prelude.{◌≡◌, ◌++◌, codes, decimal, IfOk, OnOk};
ghost use Rattle.station_graph.specs.Diagram.{bay_count};
ghost use Rattle.double_points.specs.Words.{AreWords};
ghost use Rattle.station_work.specs.WorkText.{IsWorkText, sizes_line, size_line, tally_line, log_line};

use crate::tally::{Sight, Tally, tally_operations};
use central_rules::Judge;
use double_points::Readings;
use ilk_base::{BayId, Memory, Text};
use log_replay::Report;
use station_graph::Station;
use std::alloc::Global;

// How many parts have switches.
fn bay_count(station: &Station) -> u32
    ensures { result ≡ bay_count station.now }
{
    let mut count = 0;
    for i in 0..station.part_count() {
        let (_, switches) = station.switches_of(BayId(i as u8));
        if switches > 0 {
            count += 1;
        }
    }
    count
}

// Appends the line of so many bays, switches and nodes.
fn push_sizes(
    text: &mut Text,
    name: &[u8],
    bays: u32,
    switches: u32,
    nodes: u32,
) -> Result<(), Memory>
    ensures { OnOk result (text.new ≡ text.old ++ sizes_line name.now bays switches nodes) }
{
    text.push(name)?;
    text.push(b" bays ")?;
    text.push_decimal(bays as usize)?;
    text.push(b" switches ")?;
    text.push_decimal(switches as usize)?;
    text.push(b" nodes ")?;
    text.push_decimal(nodes as usize)?;
    text.push(b"\n")
}

// Appends the line of the station's size.
fn push_size(text: &mut Text, station: &Station) -> Result<(), Memory>
    ensures { OnOk result (text.new ≡ text.old ++ size_line station.now) }
{
    let switches = u32::from(station.switch_count());
    let nodes = u32::from(station.node_count());
    push_sizes(text, b"station", bay_count(station), switches, nodes)
}

// Appends the line of a tally.
fn push_tally(text: &mut Text, name: &[u8], tally: Tally) -> Result<(), Memory>
    ensures { OnOk result (text.new ≡ text.old ++ tally_line name.now tally) }
{
    text.push(name)?;
    text.push(b" released ")?;
    text.push_decimal(tally.released as usize)?;
    text.push(b" denied ")?;
    text.push_decimal(tally.denied as usize)?;
    text.push(b"\n")
}

// Appends the line of what came of the log.
fn push_log(text: &mut Text, report: &Report) -> Result<(), Memory>
    ensures { OnOk result (text.new ≡ text.old ++ log_line report.now) }
{
    let (granted, denied, finished) = report.outcomes();
    text.push(b"log lines ")?;
    text.push_decimal(report.count() as usize)?;
    text.push(b" granted ")?;
    text.push_decimal(granted as usize)?;
    text.push(b" denied ")?;
    text.push_decimal(denied as usize)?;
    text.push(b" finished ")?;
    text.push_decimal(finished as usize)?;
    text.push(b"\n")
}

/// The four lines of a station (docs/FORMATS.md): how many bays, switches and nodes it has; how many operations
/// are released and denied by these words of all switches; how many by those of the operation's bay alone, with
/// nothing heard; and how many records the log of the replay has, and how many outcomes are granted, denied and
/// finished. The judge is one of the station. Time: four verdicts of the judge for each switch, and the outcomes
/// of the replay. Memory: the text, and that of one verdict.
pub fn work_text<J: Judge>(
    alloc: Global,
    station: &Station,
    judge: &J,
    readings: &Readings,
    report: &Report,
) -> Result<Text, Memory>
    requires same { (J.meaning judge.now).diagram ≡ station.now }
    requires words { AreWords station.now readings.now }
    ensures { IfOk result (IsWorkText station.now readings.now report.now) }
{
    let full = tally_operations(alloc, station, judge, Sight::Full, readings)?;
    let blind = tally_operations(alloc, station, judge, Sight::Blind, readings)?;
    let mut text = Text::new(alloc);
    push_size(&mut text, station)?;
    push_tally(&mut text, b"full", full)?;
    push_tally(&mut text, b"blind", blind)?;
    push_log(&mut text, report)?;
    Ok(text)
}
