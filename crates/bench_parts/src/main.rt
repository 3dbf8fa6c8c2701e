//! Measures one part of the program, which the first word names, and prints the times too where the last word is
//! `time`. Most read the drawing in the file `drawing.ssd`. `bench/*/run.py` call it; `all` is a small run of each.
#![tactic(auto)]

mod alphabets;
mod compositions;
mod elements;
mod graph_questions;
mod graphs;
mod verdicts;

use anyhow::{Context, Result, bail};
use graphs::Sizes;
use ssd_read::read_ssd;
use station_graph::Station;
use std::{env, fs};

// The drawing, as bytes.
fn read_drawing(rt: &HostRuntime) -> Result<Vec<u8>> {
    Ok(fs::read(rt, "drawing.ssd")?)
}

// The station of the drawing.
fn read_station(rt: &HostRuntime) -> Result<Station> {
    let bytes = read_drawing(rt)?;
    match read_ssd(rt.alloc(), &bytes) {
        Ok(station) => Ok(station),
        Err(_) => bail!("the drawing is refused"),
    }
}

// The word at this place, as a number.
fn number(words: &[String], place: usize) -> Result<u32> {
    match words.get(place) {
        Some(word) => word.as_str().parse::<u32>().context("a size is a number"),
        None => bail!("a size is missing"),
    }
}

fn measure_elements(rt: &HostRuntime, timed: bool) -> Result<()> {
    let bytes = read_drawing(rt)?;
    elements::measure(rt, &bytes, timed)
}

// What is measured of a station.
#[derive(Clone, Copy)]
enum Part {
    Alphabets,
    // so many of each
    Compositions(u32),
    Verdicts,
}

fn measure_part(rt: &HostRuntime, station: &Station, part: Part, timed: bool) -> Result<()> {
    match part {
        Part::Alphabets => alphabets::measure(rt, station, timed),
        Part::Compositions(calls) => compositions::measure(rt, station, calls, timed),
        Part::Verdicts => verdicts::measure(rt, station, timed),
    }
}

fn measure_station(rt: &HostRuntime, part: Part, timed: bool) -> Result<()> {
    let station = read_station(rt)?;
    measure_part(rt, &station, part, timed)
}

// What is left in memory by the reading of the file alone.
fn measure_load(rt: &HostRuntime) -> Result<()> {
    let _bytes = read_drawing(rt)?;
    elements::print_peak(rt)
}

fn measure_all(rt: &HostRuntime) -> Result<()> {
    let sizes = Sizes {
        layers: 4,
        choices: 3,
        nodes: 5,
        labels: 4,
    };
    measure_elements(rt, false)?;
    measure_station(rt, Part::Compositions(2), false)?;
    measure_station(rt, Part::Alphabets, false)?;
    graphs::measure(rt, sizes, false)?;
    measure_station(rt, Part::Verdicts, false)
}

fn measure(rt: &HostRuntime, which: &str, words: &[String], timed: bool) -> Result<()> {
    match which {
        "all" => measure_all(rt),
        "alphabets" => measure_station(rt, Part::Alphabets, timed),
        "compositions" => {
            let calls = number(words, 1)?;
            measure_station(rt, Part::Compositions(calls), timed)
        }
        "elements" => measure_elements(rt, timed),
        "graphs" => {
            let sizes = Sizes {
                layers: number(words, 1)?,
                choices: number(words, 2)?,
                nodes: number(words, 3)?,
                labels: number(words, 4)?,
            };
            graphs::measure(rt, sizes, timed)
        }
        "load" => measure_load(rt),
        "verdicts" => measure_station(rt, Part::Verdicts, timed),
        _ => bail!("of the parts there is none of this name"),
    }
}

// Adds the words of the command line behind the name of the program.
fn push_words(rt: &HostRuntime, words: &mut Vec<String>) -> Result<()> {
    for word in env::args(rt)?.skip(1) {
        words.push(word)?;
    }
    Ok(())
}

// Whether the last word asks for the times.
fn is_timed(words: &[String]) -> bool {
    match words.last() {
        Some(word) => word.as_str() == "time",
        None => false,
    }
}

fn main(rt: HostRuntime) -> Result<()> {
    let mut words = Vec::new(rt.alloc());
    push_words(&rt, &mut words)?;
    match words.first() {
        Some(which) => measure(&rt, which.as_str(), &words, is_timed(&words)),
        None => bail!(
            "usage: all | load | elements | alphabets | compositions CALLS | verdicts | graphs SIZES"
        ),
    }
}
