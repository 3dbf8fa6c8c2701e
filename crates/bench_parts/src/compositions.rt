//! Compositions of two contractions, which keep the same nodes where the drawing is made so.
ghost use Rattle.std.specs.Prelude.{◌<◌, length};

use anyhow::Result;
use contraction::Contraction;
use ilk_base::SwitchId;
use station_graph::{NodeList, Station};
use std::alloc::Global;
use std::time::Instant;

// The contraction of no item, on no node.
fn nothing(alloc: Global) -> Result<Contraction> {
    Ok(Contraction::empty(alloc, &NodeList::new(alloc))?)
}

// Adds one to all.
fn add(alloc: Global, all: &mut Contraction, one: &Contraction) -> Result<()> {
    *all = all.compose(alloc, one)?;
    Ok(())
}

// Adds a closed switch.
fn add_switch(alloc: Global, station: &Station, id: SwitchId, all: &mut Contraction) -> Result<()>
    requires { id.0 < length station.now.switches }
{
    let one = Contraction::of_switch(alloc, station, id, true)?;
    add(alloc, all, &one)
}

// Adds all switches of every second part, from this one on, closed.
fn add_switches(alloc: Global, station: &Station, first: u8, all: &mut Contraction) -> Result<()> {
    for i in 0..station.switch_count() {
        if station.switch(SwitchId(i)).bay.0 % 2 == first {
            add_switch(alloc, station, SwitchId(i), all)?;
        }
    }
    Ok(())
}

// All switches of every second part, from this one on, closed.
fn switches(alloc: Global, station: &Station, first: u8) -> Result<Contraction> {
    let mut all = nothing(alloc)?;
    add_switches(alloc, station, first, &mut all)?;
    Ok(all)
}

// Adds a tap.
fn add_tap(alloc: Global, station: &Station, i: u16, all: &mut Contraction) -> Result<()>
    requires { i < length station.now.taps }
{
    let one = Contraction::of_tap(alloc, station, i)?;
    add(alloc, all, &one)
}

// Adds all taps.
fn add_taps(alloc: Global, station: &Station, all: &mut Contraction) -> Result<()> {
    for i in 0..station.tap_count() {
        add_tap(alloc, station, i, all)?;
    }
    Ok(())
}

// All taps.
fn taps(alloc: Global, station: &Station) -> Result<Contraction> {
    let mut all = nothing(alloc)?;
    add_taps(alloc, station, &mut all)?;
    Ok(all)
}

// Composes once more, and puts the composition in place of the last.
fn compose_again(
    alloc: Global,
    first: &Contraction,
    second: &Contraction,
    last: &mut Contraction,
) -> Result<()> {
    *last = first.compose(alloc, second)?;
    Ok(())
}

// Composes so often more.
fn compose_more(
    alloc: Global,
    first: &Contraction,
    second: &Contraction,
    calls: u32,
    last: &mut Contraction,
) -> Result<()> {
    for _ in 1..calls {
        compose_again(alloc, first, second, last)?;
    }
    Ok(())
}

// Composes so often, and gives the last composition.
fn compose_often(
    alloc: Global,
    first: &Contraction,
    second: &Contraction,
    calls: u32,
) -> Result<Contraction> {
    let mut last = first.compose(alloc, second)?;
    compose_more(alloc, first, second, calls, &mut last)?;
    Ok(last)
}

// Prints how many bytes the row of the composition has.
fn tell_row(rt: &HostRuntime, name: &str, last: &Contraction) -> Result<()> {
    let row = last.row(rt.alloc())?;
    println!(rt; "{name}: {} bytes", row.bytes().len())?;
    Ok(())
}

// Composes two values so often, prints how many bytes the row of the composition has, and gives the nanoseconds.
fn compose_pair(
    rt: &HostRuntime,
    name: &str,
    first: &Contraction,
    second: &Contraction,
    calls: u32,
) -> Result<u128> {
    let start = Instant::now(rt)?;
    let last = compose_often(rt.alloc(), first, second, calls)?;
    let spent = start.elapsed(rt)?.as_nanos();
    tell_row(rt, name, &last)?;
    Ok(spent)
}

// Composes two values, and prints what is told of it.
fn measure_pair(
    rt: &HostRuntime,
    name: &str,
    first: &Contraction,
    second: &Contraction,
    calls: u32,
    timed: bool,
) -> Result<()> {
    let spent = compose_pair(rt, name, first, second, calls)?;
    if timed {
        println!(rt; "{name}: {spent} ns in all")?;
    }
    Ok(())
}

// Composes the closed switches of every second part with those of the others, which are the first value.
fn measure_joined(
    rt: &HostRuntime,
    station: &Station,
    first: &Contraction,
    calls: u32,
    timed: bool,
) -> Result<()> {
    let second = switches(rt.alloc(), station, 1)?;
    measure_pair(rt, "joined", first, &second, calls, timed)
}

// Composes the taps with themselves.
fn measure_alone(rt: &HostRuntime, station: &Station, calls: u32, timed: bool) -> Result<()> {
    let alone = taps(rt.alloc(), station)?;
    measure_pair(rt, "alone", &alone, &alone, calls, timed)
}

// Composes the switches, of which the first value is made here.
fn measure_switches(rt: &HostRuntime, station: &Station, calls: u32, timed: bool) -> Result<()> {
    let first = switches(rt.alloc(), station, 0)?;
    measure_joined(rt, station, &first, calls, timed)
}

/// Composes the closed switches of every second part with those of the others, and the taps with themselves.
pub fn measure(rt: &HostRuntime, station: &Station, calls: u32, timed: bool) -> Result<()> {
    measure_switches(rt, station, calls, timed)?;
    measure_alone(rt, station, calls, timed)
}
