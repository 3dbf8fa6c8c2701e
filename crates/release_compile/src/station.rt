//! The verdicts of all operations of a station, by one list of words.
ghost use Rattle.std.specs.Prelude.{◌≡◌, ◌<◌, length, IfOk, IfSome};
ghost use Rattle.station_graph.specs.Diagram.{part_count};
ghost use Rattle.station_graph.specs.Connection.{a_switch};
ghost use Rattle.station_graph.specs.Sharing.{OfPart};
ghost use Rattle.double_points.specs.Words.{AreWords};
ghost use Rattle.central_rules.specs.Meaning.{IsBay, bay_of};
ghost use Rattle.part_alphabets.specs.Alphabets.{AreAlphabets};
ghost use Rattle.judge_pool.specs.Lettered.{lettered};
ghost use Rattle.judge_graphs.specs.Built.{AreBayGraphs};
ghost use Rattle.judge_graphs.specs.BuiltView.{seen_bay};
ghost use Rattle.release_compile.specs.Chaining.{HasReached};
ghost use Rattle.release_compile.specs.Judging.{ground};
ghost use Rattle.release_compile.specs.Summaries.{ArePossibleSets};
ghost use Rattle.release_compile.specs.Possible.{AreAllWords};
ghost use Rattle.release_compile.specs.Sides.{AreSides};
ghost use Rattle.release_compile.specs.Reaches.{IsReachOf, AreVerdictsOf, AreVerdicts};

use crate::all_words::{AllWords, possible_by};
use crate::build::{GraphJudge, switch_bay};
use crate::by_words::{decide_words, reach_words};
use crate::reached::Reached;
use crate::sides::{Sides, sides_of};
use bay_contract::Parts;
use central_rules::Verdict;
use decision_graphs::ChoiceSets;
use double_points::Readings;
use ilk_base::{BayId, Direction, Memory, Op, SwitchId};
use judge_graphs::BayGraphs;
use station_graph::Station;
use std::alloc::Global;

/// The verdicts of a switch's two operations.
#[derive(Drop)]
pub struct SwitchVerdicts {
    /// of opening it
    pub opening: Verdict,
    /// of closing it
    pub closing: Verdict,
}

// What the outer graphs of a bay reach by the words.
#[derive(Drop)]
pub(crate) struct BayReach {
    pub(crate) bay: BayId,
    pub(crate) reached: Reached,
}

// What the outer graphs of a bay reach by the words.
fn reach_bay(
    alloc: Global,
    judge: &GraphJudge,
    bay: BayId,
    all: &AllWords,
) -> Result<BayReach, Memory>
    requires bay { IsBay judge.now.diagram bay.0 }
    requires all { AreAllWords (ground judge.now) all.now }
    ensures bay { IfOk result (λ r. r.bay ≡ bay) }
    ensures reach { IfOk result (IsReachOf judge.now all.now.words.now) }
{
    let station = judge.station();
    let graphs = judge.bay(bay);
    let reached = reach_words(alloc, station, judge.parts(), graphs, bay, all)?;
    Ok(BayReach { bay, reached })
}

// The same, which is at hand where it was asked of this bay last.
fn reach_of(
    alloc: Global,
    judge: &GraphJudge,
    last: Option<BayReach>,
    bay: BayId,
    all: &AllWords,
) -> Result<BayReach, Memory>
    requires last { IfSome last (IsReachOf judge.now all.now.words.now) }
    requires bay { IsBay judge.now.diagram bay.0 }
    requires all { AreAllWords (ground judge.now) all.now }
    ensures bay { IfOk result (λ r. r.bay ≡ bay) }
    ensures reach { IfOk result (IsReachOf judge.now all.now.words.now) }
{
    if let Some(reach) = last {
        if reach.bay == bay {
            return Ok(reach);
        }
    }
    reach_bay(alloc, judge, bay, all)
}

// The verdicts of both operations of a switch, in graphs that are ready for the words.
fn decide_both(
    alloc: Global,
    station: &Station,
    parts: &Parts,
    sides: &Sides,
    switch: SwitchId,
    all: &AllWords,
    sets: &ChoiceSets,
) -> Result<SwitchVerdicts, Memory>
    requires lettered { AreAlphabets station.now parts.now }
    requires all { AreAllWords (lettered station.now parts.now) all.now }
    requires sides { AreSides (lettered station.now parts.now) switch.0 all.now.words.now sets.now sides.now }
    requires possible { ArePossibleSets (lettered station.now parts.now) sides.now.place.bay.0 all.now.words.now
        sets.now }
    ensures { IfOk result (AreVerdictsOf station.now all.now.words.now switch.0) }
{
    let open = Op {
        switch,
        direction: Direction::ToOff,
    };
    let close = Op {
        switch,
        direction: Direction::ToOn,
    };
    let opening = decide_words(alloc, station, parts, sides, open, all, sets)?;
    let closing = decide_words(alloc, station, parts, sides, close, all, sets)?;
    Ok(SwitchVerdicts { opening, closing })
}

// The verdicts of both operations of a switch, by what the outer graphs of its bay reach.
fn judge_both(
    alloc: Global,
    station: &Station,
    parts: &Parts,
    graphs: &BayGraphs,
    bay: BayId,
    switch: SwitchId,
    all: &AllWords,
    reached: &Reached,
) -> Result<SwitchVerdicts, Memory>
    requires lettered { AreAlphabets station.now parts.now }
    requires graphs { AreBayGraphs (lettered station.now parts.now) bay.0 (seen_bay graphs.now) }
    requires bay { bay.0 < part_count station.now }
    requires part { OfPart station.now bay.0 (a_switch switch.0) }
    requires all { AreAllWords (lettered station.now parts.now) all.now }
    requires sets { ArePossibleSets (lettered station.now parts.now) bay.0 all.now.words.now reached.now.sets }
    requires reached { HasReached graphs.now.gap.merged.value graphs.now.load.merged.value reached.now }
    ensures { IfOk result (AreVerdictsOf station.now all.now.words.now switch.0) }
{
    let sides = sides_of(
        alloc, station, parts, graphs, bay, switch, all.words, reached,
    )?;
    let verdicts = decide_both(alloc, station, parts, &sides, switch, all, &reached.sets)?;
    Ok(verdicts)
}

// The same, by what was reached for its bay.
fn judge_switch(
    alloc: Global,
    judge: &GraphJudge,
    reach: &BayReach,
    switch: SwitchId,
    all: &AllWords,
) -> Result<SwitchVerdicts, Memory>
    requires switch { switch.0 < length judge.now.diagram.switches }
    requires all { AreAllWords (ground judge.now) all.now }
    requires reach { IsReachOf judge.now all.now.words.now reach.now }
    requires bay { reach.now.bay.0 ≡ bay_of judge.now.diagram switch.0 }
    ensures { IfOk result (AreVerdictsOf judge.now.diagram all.now.words.now switch.0) }
{
    let station = judge.station();
    let bay = switch_bay(station, switch);
    let graphs = judge.bay(bay);
    let parts = judge.parts();
    judge_both(
        alloc,
        station,
        parts,
        graphs,
        bay,
        switch,
        all,
        &reach.reached,
    )
}

impl<'a> GraphJudge<'a> {
    /// The verdicts of both operations of each switch in order, where the word of every switch is known: each as
    /// `judge_all` gives it. Time: the steps of the parts and the edges of all outer graphs, each once, and for each
    /// operation the edges of its inner graphs; for each denial the layers of one outer graph more. Memory: for one bay
    /// at a time the indices of all parts and the nodes of its outer graphs.
    pub fn judge_station(
        &self,
        alloc: Global,
        readings: &Readings,
    ) -> Result<Vec<SwitchVerdicts>, Memory>
        requires { AreWords self.now.diagram readings.now }
        ensures { IfOk result (λ v. AreVerdicts self.now.diagram readings.now v.items
            (length self.now.diagram.switches)) }
    {
        let all = possible_by(alloc, self.station(), self.parts(), readings)?;
        let mut verdicts = Vec::new(alloc);
        let mut last = None;
        for switch in 0..self.station().switch_count() {
            let bay = switch_bay(self.station(), SwitchId(switch));
            let reach = reach_of(alloc, self, last, bay, &all)?;
            let both = judge_switch(alloc, self, &reach, SwitchId(switch), &all)?;
            verdicts.push(both)?;
            last = Some(reach);
        }
        Ok(verdicts)
    }
}
