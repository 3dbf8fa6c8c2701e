//! The alphabets of all parts of a station.
ghost use Rattle.part_alphabets.specs.Alphabets.{AreAlphabets};

use anyhow::{Result, bail};
use bay_contract::Parts;
use ilk_base::BayId;
use station_graph::Station;
use std::time::Instant;

// How many letters all alphabets have.
fn letters(station: &Station, parts: &Parts) -> u32
    requires made { AreAlphabets station.now parts.now }
{
    let mut count = 0u32;
    for part in 0..station.part_count() {
        count = count.saturating_add(u32::from(parts.size(BayId(part as u8))));
    }
    count
}

/// Makes the alphabets, and prints how many letters they have.
pub fn measure(rt: &HostRuntime, station: &Station, timed: bool) -> Result<()> {
    let start = Instant::now(rt)?;
    let made = Parts::new(rt.alloc(), station);
    let spent = start.elapsed(rt)?.as_micros();
    match made {
        Ok(parts) => println!(rt; "letters {}", letters(station, &parts))?,
        Err(_) => bail!("no alphabets"),
    }
    if timed {
        println!(rt; "microseconds {spent}")?;
    }
    Ok(())
}
