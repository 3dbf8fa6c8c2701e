//! The graphs of all bays of a station, and the verdicts by them where no position is known.
ghost use Rattle.std.specs.Prelude.{◌≡◌};

use anyhow::{Result, bail};
use central_rules::Verdict;
use double_points::Readings;
use ilk_base::Memory;
use release_compile::{GraphJudge, SwitchVerdicts};
use station_graph::Station;
use std::alloc::Global;
use std::time::Instant;

// 1 for a denial.
fn denied(verdict: &Verdict) -> u32 {
    match verdict {
        Verdict::Release => 0,
        Verdict::Denied { .. } => 1,
    }
}

// How many of the verdicts are denials.
fn denials(verdicts: &[SwitchVerdicts]) -> u32 {
    let mut count = 0u32;
    for one in verdicts {
        count = count.saturating_add(denied(&one.opening));
        count = count.saturating_add(denied(&one.closing));
    }
    count
}

// The verdicts where no position is known.
fn judged(
    alloc: Global,
    station: &Station,
    judge: &GraphJudge,
) -> Result<Vec<SwitchVerdicts>, Memory>
    requires { judge.now.diagram ≡ station.now }
{
    let lost = Readings::lost(alloc, station)?;
    judge.judge_station(alloc, &lost)
}

// Judges each operation, and prints how many are denied.
fn measure_verdicts(
    rt: &HostRuntime,
    station: &Station,
    judge: &GraphJudge,
    timed: bool,
) -> Result<()>
    requires { judge.now.diagram ≡ station.now }
{
    let start = Instant::now(rt)?;
    let verdicts = judged(rt.alloc(), station, judge)?;
    let spent = start.elapsed(rt)?.as_micros();
    println!(rt; "denied {}", denials(&verdicts))?;
    if timed {
        println!(rt; "judged {spent}")?;
    }
    Ok(())
}

/// Makes the graphs and judges by them.
pub fn measure(rt: &HostRuntime, station: &Station, timed: bool) -> Result<()> {
    let start = Instant::now(rt)?;
    let made = GraphJudge::build(rt.alloc(), station);
    let spent = start.elapsed(rt)?.as_micros();
    if timed {
        println!(rt; "built {spent}")?;
    }
    match made {
        Ok(graphs) => measure_verdicts(rt, station, &graphs, timed),
        Err(_) => bail!("no graphs"),
    }
}
