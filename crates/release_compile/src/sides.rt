//! The graphs of both views of a switch, ready to be searched.
ghost use Rattle.std.specs.Prelude.{◌≡◌, ℕ, ◌<◌, suc, length, IfOk};
ghost use Rattle.station_graph.specs.Diagram.{part_count, AreSwitchesOf};
ghost use Rattle.station_graph.specs.Connection.{a_switch};
ghost use Rattle.station_graph.specs.Sharing.{OfPart};
ghost use Rattle.double_points.specs.Words.{AreWords};
ghost use Rattle.decision_graphs.specs.Reaching.{AreSetsOf, MarksReached};
ghost use Rattle.decision_graphs.specs.Marked.{AreMarksOf, PathsLead};
ghost use Rattle.judge_pool.specs.declared.view.View.TheVariants.{Gap as GapView, Load as LoadView};
ghost use Rattle.judge_intake.specs.Coding.{labels_of};
ghost use Rattle.judge_pool.specs.Lettered.{Lettered, lettered};
ghost use Rattle.judge_graphs.specs.Built.{AreBayGraphs, AreViewGraphs};
ghost use Rattle.judge_graphs.specs.BuiltView.{view_of, seen_bay};
ghost use Rattle.judge_pool.specs.Graphs.{IsOwn};
ghost use Rattle.release_compile.specs.Allowed.{IsSide};
ghost use Rattle.release_compile.specs.Chaining.{HasReached};
ghost use Rattle.release_compile.specs.Sides.{AreSides};

use crate::reached::Reached;
use crate::search::Side;
use crate::sets::side;
use bay_contract::Parts;
use decision_graphs::{ChoiceSets, Marks};
use double_points::Readings;
use ilk_base::{BayId, Memory, SwitchId};
use judge_graphs::{BayGraphs, ViewGraphs};
use judge_pool::View;
use station_graph::Station;
use std::alloc::Global;

// Whose switch is decided: the bay, its first switch and how many it has beside this one, and how many other parts
// there are.
#[derive(Clone, Copy)]
pub(crate) struct Place {
    pub(crate) bay: BayId,
    pub(crate) first: u16,
    pub(crate) others: u16,
    pub(crate) parts: u16,
}

// The graphs of both views of a switch, ready for the sets of the other parts and the words of its bay. Both of its
// operations are searched in them.
#[derive(Drop)]
pub(crate) struct Sides<'a> {
    pub(crate) place: Place,
    pub(crate) gap: Side<'a>,
    pub(crate) load: Side<'a>,
}

// Whose switch it is.
pub(crate) fn place_of(station: &Station, bay: BayId, graphs: &BayGraphs, switch: SwitchId) -> Place
    requires part { OfPart station.now bay.0 (a_switch switch.0) }
    requires switches { AreSwitchesOf station.now bay.0 graphs.now.first graphs.now.count }
    requires bay { bay.0 < part_count station.now }
    ensures bay { result.bay ≡ bay }
    ensures parts { suc result.parts ≡ part_count station.now }
    ensures own { IsOwn station.now result.bay.0 switch.0 result.first result.others }
    ensures gap { (a : Lettered) → AreBayGraphs a bay.0 (seen_bay graphs.now)
        → AreViewGraphs GapView a result.bay.0 result.first (suc result.others) (view_of graphs.now.gap) }
    ensures load { (a : Lettered) → AreBayGraphs a bay.0 (seen_bay graphs.now)
        → AreViewGraphs LoadView a result.bay.0 result.first (suc result.others) (view_of graphs.now.load) }
{
    Place {
        bay,
        first: graphs.first,
        others: graphs.count - 1,
        parts: station.part_count() - 1,
    }
}

// The graphs of one view of the switch, ready for these sets and words.
pub(crate) fn view_side<'a>(
    alloc: Global,
    view: View,
    station: &Station,
    parts: &Parts,
    graphs: &'a ViewGraphs,
    sets: &ChoiceSets,
    marks: &'a Marks,
    own: &Readings,
    place: Place,
    switch: SwitchId,
) -> Result<Side<'a>, Memory>
    requires own { IsOwn station.now place.bay.0 switch.0 place.first place.others }
    requires words { AreWords station.now own.now }
    requires sets { AreSetsOf graphs.now.merged.value.layers sets.now }
    requires marks { AreMarksOf graphs.now.merged.value marks.now }
    requires reached { MarksReached graphs.now.merged.value sets.now marks.now.labels }
    requires paths { PathsLead graphs.now.merged.value sets.now marks.now }
    requires graphs { AreViewGraphs view (lettered station.now parts.now) place.bay.0 place.first (suc place.others)
        (view_of graphs.now) }
    ensures side { IfOk result (IsSide view (lettered station.now parts.now) place.bay.0 switch.0 place.first
        place.others own.now sets.now) }
    ensures labels { IfOk result (λ s. s.inner.now.labels ≡ labels_of view) }
{
    let _count = station.switch_count();
    let index = usize::from(switch.0 - place.first);
    let inner = &graphs.inner[index];
    let made = side(
        alloc,
        graphs.merged.as_ref(),
        inner,
        sets,
        marks,
        own,
        place.first,
        switch.0,
        place.others,
    )?;
    Ok(made)
}

// The graphs of both views of the switch, ready for what the outer graphs reach and the words of its bay.
pub(crate) fn sides_of<'a>(
    alloc: Global,
    station: &Station,
    parts: &Parts,
    graphs: &'a BayGraphs,
    bay: BayId,
    switch: SwitchId,
    own: &Readings,
    reached: &'a Reached,
) -> Result<Sides<'a>, Memory>
    requires graphs { AreBayGraphs (lettered station.now parts.now) bay.0 (seen_bay graphs.now) }
    requires bay { bay.0 < part_count station.now }
    requires part { OfPart station.now bay.0 (a_switch switch.0) }
    requires words { AreWords station.now own.now }
    requires reached { HasReached graphs.now.gap.merged.value graphs.now.load.merged.value reached.now }
    ensures bay { IfOk result (λ s. s.place.bay ≡ bay) }
    ensures sides { IfOk result (AreSides (lettered station.now parts.now) switch.0 own.now reached.now.sets) }
{
    let place = place_of(station, bay, graphs, switch);
    let gap = view_side(
        alloc,
        View::Gap,
        station,
        parts,
        &graphs.gap,
        &reached.sets,
        &reached.gap,
        own,
        place,
        switch,
    )?;
    let load = view_side(
        alloc,
        View::Load,
        station,
        parts,
        &graphs.load,
        &reached.sets,
        &reached.load,
        own,
        place,
        switch,
    )?;
    Ok(Sides { place, gap, load })
}
