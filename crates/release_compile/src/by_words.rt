//! The verdict by the words of all switches.
ghost use Rattle.std.specs.Prelude.{◌≡◌, ◌<◌, IfOk};
ghost use Rattle.station_graph.specs.Diagram.{part_count};
ghost use Rattle.station_graph.specs.Connection.{a_switch};
ghost use Rattle.station_graph.specs.Sharing.{OfPart};
ghost use Rattle.central_rules.specs.Readings.{IsReading, Decides};
ghost use Rattle.part_alphabets.specs.Alphabets.{AreAlphabets};
ghost use Rattle.judge_pool.specs.Lettered.{lettered};
ghost use Rattle.judge_graphs.specs.Built.{AreBayGraphs};
ghost use Rattle.judge_graphs.specs.BuiltView.{seen_bay};
ghost use Rattle.release_compile.specs.Chaining.{HasReached};
ghost use Rattle.release_compile.specs.Summaries.{ArePossibleSets};
ghost use Rattle.release_compile.specs.Possible.{AreAllWords};
ghost use Rattle.release_compile.specs.Sides.{AreSides};

use crate::all_words::AllWords;
use crate::decide::decide;
use crate::reached::{Reached, reach};
use crate::sets::possible_sets;
use crate::sides::{Sides, sides_of};
use bay_contract::Parts;
use central_rules::Verdict;
use decision_graphs::ChoiceSets;
use ilk_base::{BayId, Memory, Op};
use judge_graphs::BayGraphs;
use station_graph::Station;
use std::alloc::Global;

// What the outer graphs of a bay reach by the words.
pub(crate) fn reach_words(
    alloc: Global,
    station: &Station,
    parts: &Parts,
    graphs: &BayGraphs,
    bay: BayId,
    all: &AllWords,
) -> Result<Reached, Memory>
    requires lettered { AreAlphabets station.now parts.now }
    requires graphs { AreBayGraphs (lettered station.now parts.now) bay.0 (seen_bay graphs.now) }
    requires bay { bay.0 < part_count station.now }
    requires all { AreAllWords (lettered station.now parts.now) all.now }
    ensures sets { IfOk result (λ r. ArePossibleSets (lettered station.now parts.now) bay.0 all.now.words.now r.sets) }
    ensures reached { IfOk result (HasReached graphs.now.gap.merged.value graphs.now.load.merged.value) }
{
    let others = station.part_count() - 1;
    let sets = possible_sets(
        alloc,
        station,
        parts,
        graphs.gap.merged.as_ref(),
        bay,
        others,
        all,
    )?;
    let reached = reach(alloc, graphs, sets)?;
    Ok(reached)
}

// The verdict by the words, in graphs that are ready for them.
pub(crate) fn decide_words(
    alloc: Global,
    station: &Station,
    parts: &Parts,
    sides: &Sides,
    op: Op,
    all: &AllWords,
    sets: &ChoiceSets,
) -> Result<Verdict, Memory>
    requires lettered { AreAlphabets station.now parts.now }
    requires all { AreAllWords (lettered station.now parts.now) all.now }
    requires sides { AreSides (lettered station.now parts.now) op.switch.0 all.now.words.now sets.now sides.now }
    requires possible { ArePossibleSets (lettered station.now parts.now) sides.now.place.bay.0 all.now.words.now
        sets.now }
    ensures { IfOk result (Decides station.now (IsReading all.now.words.now) op) }
{
    let _count = station.part_count();
    let verdict = decide(alloc, station, parts, sides, op, Some(all), all.words, sets)?;
    Ok(verdict)
}

// The verdict by the words, by what the outer graphs reach by them.
pub(crate) fn judge_words(
    alloc: Global,
    station: &Station,
    parts: &Parts,
    graphs: &BayGraphs,
    bay: BayId,
    op: Op,
    all: &AllWords,
    reached: &Reached,
) -> Result<Verdict, Memory>
    requires lettered { AreAlphabets station.now parts.now }
    requires graphs { AreBayGraphs (lettered station.now parts.now) bay.0 (seen_bay graphs.now) }
    requires bay { bay.0 < part_count station.now }
    requires part { OfPart station.now bay.0 (a_switch op.switch.0) }
    requires all { AreAllWords (lettered station.now parts.now) all.now }
    requires sets { ArePossibleSets (lettered station.now parts.now) bay.0 all.now.words.now reached.now.sets }
    requires reached { HasReached graphs.now.gap.merged.value graphs.now.load.merged.value reached.now }
    ensures { IfOk result (Decides station.now (IsReading all.now.words.now) op) }
{
    let sides = sides_of(
        alloc, station, parts, graphs, bay, op.switch, all.words, reached,
    )?;
    let verdict = decide_words(alloc, station, parts, &sides, op, all, &reached.sets)?;
    Ok(verdict)
}
