//! The first rule that an operation breaks in an allowed vector, view by view: the graphs of a view are walked when it
//! is asked, and not before; and its outer graph only where the words of the bay leave a rule to be said.
ghost use Rattle.std.specs.Prelude.{◌≡◌, suc, IfOk, MatchOption};
ghost use Rattle.station_graph.specs.Diagram.{part_count};
ghost use Rattle.double_points.specs.Words.{AreWords};
ghost use Rattle.decision_graphs.specs.Reaching.{AreSetsOf};
ghost use Rattle.judge_pool.specs.declared.view.View.TheVariants.{Gap as GapView, Load as LoadView};
ghost use Rattle.judge_pool.specs.Graphs.{IsOwn};
ghost use Rattle.judge_pool.specs.Lettered.{lettered};
ghost use Rattle.judge_graphs.specs.Built.{AreViewGraphs};
ghost use Rattle.judge_graphs.specs.BuiltView.{view_of};
ghost use Rattle.release_compile.specs.Denying.{IsDenial, IsFree, IsGapFree};

use crate::own_words::may_say;
use crate::reached::marked;
use crate::search::{Found, search_gap};
use crate::sides::{Place, view_side};
use bay_contract::Parts;
use decision_graphs::ChoiceSets;
use double_points::Readings;
use ilk_base::{Direction, Kind, Memory, Op, Rule};
use judge_graphs::{BayGraphs, ViewGraphs};
use judge_pool::View;
use station_graph::Station;
use std::alloc::Global;

// The first of the first two rules that the operation breaks, if any. Only closing breaks one of them.
fn find_in_gap(
    alloc: Global,
    station: &Station,
    parts: &Parts,
    graphs: &ViewGraphs,
    place: Place,
    op: Op,
    own: &Readings,
    sets: &ChoiceSets,
) -> Result<Option<Found>, Memory>
    requires own { IsOwn station.now place.bay.0 op.switch.0 place.first place.others }
    requires words { AreWords station.now own.now }
    requires sets { AreSetsOf graphs.now.merged.value.layers sets.now }
    requires graphs { AreViewGraphs GapView (lettered station.now parts.now) place.bay.0 place.first (suc place.others)
        (view_of graphs.now) }
    ensures { IfOk result (λ o. MatchOption o
        (IsGapFree (lettered station.now parts.now) place.bay.0 own.now sets.now op)
        (IsDenial (lettered station.now parts.now) place.bay.0 op.switch.0 place.first place.others own.now sets.now
        op)) }
{
    match op.direction {
        Direction::ToOff => Ok(None),
        Direction::ToOn => {
            if !may_say(
                alloc,
                View::Gap,
                station,
                parts,
                graphs,
                own,
                place,
                op.switch,
            )? {
                return Ok(None);
            }
            let marks = marked(alloc, graphs.merged.as_ref(), sets)?;
            let side = view_side(
                alloc,
                View::Gap,
                station,
                parts,
                graphs,
                sets,
                &marks,
                own,
                place,
                op.switch,
            )?;
            let found = search_gap(alloc, &side, sets)?;
            Ok(found)
        }
    }
}

// The third rule, if the operation breaks it, where it breaks none of the first two. It is for disconnectors alone.
fn find_in_load(
    alloc: Global,
    station: &Station,
    parts: &Parts,
    graphs: &ViewGraphs,
    place: Place,
    op: Op,
    own: &Readings,
    sets: &ChoiceSets,
) -> Result<Option<Found>, Memory>
    requires own { IsOwn station.now place.bay.0 op.switch.0 place.first place.others }
    requires words { AreWords station.now own.now }
    requires sets { AreSetsOf graphs.now.merged.value.layers sets.now }
    requires graphs { AreViewGraphs LoadView (lettered station.now parts.now) place.bay.0 place.first (suc place.others)
        (view_of graphs.now) }
    requires free { IsGapFree (lettered station.now parts.now) place.bay.0 own.now sets.now op }
    ensures { IfOk result (λ o. MatchOption o
        (IsFree (lettered station.now parts.now) place.bay.0 own.now sets.now op)
        (IsDenial (lettered station.now parts.now) place.bay.0 op.switch.0 place.first place.others own.now sets.now
        op)) }
{
    let moved = station.switch(op.switch);
    if moved.kind != Kind::Disconnector {
        return Ok(None);
    }
    if !may_say(
        alloc,
        View::Load,
        station,
        parts,
        graphs,
        own,
        place,
        op.switch,
    )? {
        return Ok(None);
    }
    let marks = marked(alloc, graphs.merged.as_ref(), sets)?;
    let side = view_side(
        alloc,
        View::Load,
        station,
        parts,
        graphs,
        sets,
        &marks,
        own,
        place,
        op.switch,
    )?;
    match side.choices_to(alloc, sets, 1)? {
        Some(choices) => Ok(Some(Found {
            rule: Rule::R3,
            choices,
        })),
        None => Ok(None),
    }
}

// The first rule that the operation breaks in an allowed vector, if any, with choices that lead there.
pub(crate) fn find_denial(
    alloc: Global,
    station: &Station,
    parts: &Parts,
    graphs: &BayGraphs,
    place: Place,
    op: Op,
    own: &Readings,
    sets: &ChoiceSets,
) -> Result<Option<Found>, Memory>
    requires own { IsOwn station.now place.bay.0 op.switch.0 place.first place.others }
    requires words { AreWords station.now own.now }
    requires gap_sets { AreSetsOf graphs.now.gap.merged.value.layers sets.now }
    requires load_sets { AreSetsOf graphs.now.load.merged.value.layers sets.now }
    requires gap { AreViewGraphs GapView (lettered station.now parts.now) place.bay.0 place.first (suc place.others)
        (view_of graphs.now.gap) }
    requires load { AreViewGraphs LoadView (lettered station.now parts.now) place.bay.0 place.first (suc place.others)
        (view_of graphs.now.load) }
    ensures { IfOk result (λ o. MatchOption o
        (IsFree (lettered station.now parts.now) place.bay.0 own.now sets.now op)
        (IsDenial (lettered station.now parts.now) place.bay.0 op.switch.0 place.first place.others own.now sets.now
        op)) }
{
    match find_in_gap(alloc, station, parts, &graphs.gap, place, op, own, sets)? {
        Some(found) => Ok(Some(found)),
        None => {
            let found = find_in_load(alloc, station, parts, &graphs.load, place, op, own, sets)?;
            Ok(found)
        }
    }
}
