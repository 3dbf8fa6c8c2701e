//! The graphs of a station.
ghost use Rattle.std.specs.Prelude.{◌≡◌, ◌<◌, length, slice_get, Some, IfOk, IfErr};
ghost use Rattle.station_graph.specs.Connection.{a_switch};
ghost use Rattle.station_graph.specs.Sharing.{OfPart};
ghost use Rattle.part_alphabets.specs.Alphabets.{AreAlphabets};
ghost use Rattle.central_rules.specs.Meaning.{IsBay, bay_of};
ghost use Rattle.judge_graphs.specs.declared.graphs.BayGraphs.{BayGraphs as Graphs};
ghost use Rattle.judge_graphs.specs.Built.{AreBayGraphs};
ghost use Rattle.judge_graphs.specs.BuiltView.{seen_bay};
ghost use Rattle.release_compile.specs.Judging.{ground, bay_at, inner_at, AllFit, KeepsLimits};
ghost use Rattle.release_compile.specs.Judging.{IsBuildRefusal};

use crate::bays::all_bays;
use crate::refusal::BuildRefusal;
use bay_contract::{Parts, PartsRefusal};
use decision_graphs::Graph;
use ilk_base::{BayId, SwitchId};
use judge_graphs::BayGraphs;
use judge_intake::sharing_of;
use station_graph::Station;
use std::alloc::Global;
use std::marker::Model;

// The graphs at a place where there are some.
fn graphs_at(bays: &[Option<BayGraphs>], place: usize) -> &BayGraphs
    requires { (g : Graphs) × (slice_get bays.now place ≡ Some (Some g)) }
    ensures { slice_get bays.now place ≡ Some (Some result.now) }
{
    match &bays[place] {
        Some(graphs) => graphs,
        None => unreachable!(),
    }
}

// The bay of a switch.
pub(crate) fn switch_bay(station: &Station, id: SwitchId) -> BayId
    requires { id.0 < length station.now.switches }
    ensures value { result.0 ≡ bay_of station.now id.0 }
    ensures bay { IsBay station.now result.0 }
    ensures part { OfPart station.now result.0 (a_switch id.0) }
{
    let bay = station.switch(id).bay;
    let (_, _count) = station.switches_of(bay);
    bay
}

// The alphabets of the station.
fn alphabets(alloc: Global, station: &Station) -> Result<Parts, BuildRefusal>
    ensures alphabets { IfOk result (AreAlphabets station.now) }
    ensures fits { IfOk result (λ _. AllFit station.now) }
    ensures refusal { IfErr result (IsBuildRefusal station.now) }
{
    match Parts::new(alloc, station) {
        Ok(parts) => Ok(parts),
        Err(PartsRefusal::Memory) => Err(BuildRefusal::Memory),
        Err(PartsRefusal::Many { part, step }) => Err(BuildRefusal::Many { part, step }),
    }
}

/// The decision graphs of a station, by which a bay's operations are decided over all positions at once, and
/// the alphabets of its parts. For each bay an outer gap graph and an outer load graph lead from the
/// indices of the other parts to labels that name their views; for each switch an inner gap graph and an
/// inner load graph lead from such a label and the positions of the bay's other switches to what the rules
/// say of the switch. Verdicts go by the outer graphs in which the labels are one that no inner graph of the bay
/// tells apart, and which are much smaller. Contracts see it as its diagram, alphabets and graphs.
#[derive(Drop)]
pub struct GraphJudge<'a> {
    station: &'a Station,
    parts: Parts,
    bays: Vec<Option<BayGraphs>>,
}

impl<'a> Model for GraphJudge<'a> {
    ghost use Rattle.release_compile.specs.Judging.{Judging, IsJudging};
    ghost use Rattle.release_compile.specs.JudgingInside.{judging_of};

    ghost Value = { Judging };

    ghost view = { judging_of };

    ghost invariant = { λ j. IsJudging (judging_of j) };
}

impl<'a> GraphJudge<'a> {
    /// The graphs of the station. `Many` names the first part, in document order, whose distinct
    /// contractions pass a limit, and the first step at which they do. `Wide` names, where no part
    /// does, the first bay whose counted edges are more than `BAY_EDGES`, or with those of the bays before it more than
    /// `ALL_EDGES`. Before each layer of a bay's graphs each distinct view of the items so far counts an edge for each
    /// choice; the first layer of an inner graph is not counted. Time and memory: those of the edges, each once, and
    /// of the distinct compositions; a station that is refused takes those of the edges up to a limit.
    pub fn build(alloc: Global, station: &'a Station) -> Result<GraphJudge<'a>, BuildRefusal>
        ensures station { IfOk result (λ j. j.diagram ≡ station.now) }
        ensures fits { IfOk result (λ _. KeepsLimits station.now) }
        ensures refusal { IfErr result (IsBuildRefusal station.now) }
    {
        let _count = station.part_count();
        let parts = alphabets(alloc, station)?;
        let sharing = sharing_of(alloc, station)?;
        let bays = all_bays(alloc, station, &parts, &sharing)?;
        Ok(GraphJudge {
            station,
            parts,
            bays,
        })
    }

    /// The alphabets of the parts, at once.
    pub fn parts(&self) -> &Parts
        ensures value { result.now ≡ self.now.alphabets }
        ensures alphabets { AreAlphabets self.now.diagram self.now.alphabets }
    {
        &self.parts
    }

    /// The station, at once.
    pub fn station(&self) -> &Station
        ensures value { result.now ≡ self.now.diagram }
    {
        self.station
    }

    // The graphs of the bay.
    pub(crate) fn bay(&self, bay: BayId) -> &BayGraphs
        requires { IsBay self.now.diagram bay.0 }
        ensures value { seen_bay result.now ≡ bay_at self.now bay.0 }
        ensures graphs { AreBayGraphs (ground self.now) bay.0 (bay_at self.now bay.0) }
    {
        graphs_at(&self.bays, usize::from(bay.0))
    }

    /// The outer gap graph of the bay: one layer for each other part in document order, whose choices are
    /// that part's indices; each label names a gap view of all other parts. It is reduced. At once.
    pub fn outer_gap(&self, bay: BayId) -> &Graph
        requires { IsBay self.now.diagram bay.0 }
        ensures value { result.now ≡ (bay_at self.now bay.0).gap.outer }
        ensures graphs { AreBayGraphs (ground self.now) bay.0 (bay_at self.now bay.0) }
    {
        let graphs = self.bay(bay);
        graphs.gap.outer.as_ref()
    }

    /// The outer load graph of the bay, whose labels name load views of all other parts. At once.
    pub fn outer_load(&self, bay: BayId) -> &Graph
        requires { IsBay self.now.diagram bay.0 }
        ensures value { result.now ≡ (bay_at self.now bay.0).load.outer }
        ensures graphs { AreBayGraphs (ground self.now) bay.0 (bay_at self.now bay.0) }
    {
        let graphs = self.bay(bay);
        graphs.load.outer.as_ref()
    }

    /// The inner gap graph of the switch: first a layer whose choices are the labels of its bay's outer gap
    /// graph, then one for each other switch of the bay in document order, choice 0 being open and 1
    /// closed. A label is 0, 1 or 2 where closing the switch breaks none of the first two rules, R1 or R2.
    /// It is reduced. Time: the logarithm of the switches.
    pub fn inner_gap(&self, id: SwitchId) -> &Graph
        requires { id.0 < length self.now.diagram.switches }
        ensures value { result.now
            ≡ inner_at (bay_at self.now (bay_of self.now.diagram id.0))
            (bay_at self.now (bay_of self.now.diagram id.0)).gap id.0 }
        ensures graphs { AreBayGraphs (ground self.now) (bay_of self.now.diagram id.0)
            (bay_at self.now (bay_of self.now.diagram id.0)) }
    {
        let bay = switch_bay(self.station, id);
        let graphs = self.bay(bay);
        let place = usize::from(id.0 - graphs.first);
        &graphs.gap.inner[place]
    }

    /// The inner load graph of the switch: first a layer whose choices are the labels of its bay's outer
    /// load graph, then as in the inner gap graph. A label is 1 where moving the switch breaks R3, else 0.
    pub fn inner_load(&self, id: SwitchId) -> &Graph
        requires { id.0 < length self.now.diagram.switches }
        ensures value { result.now
            ≡ inner_at (bay_at self.now (bay_of self.now.diagram id.0))
            (bay_at self.now (bay_of self.now.diagram id.0)).load id.0 }
        ensures graphs { AreBayGraphs (ground self.now) (bay_of self.now.diagram id.0)
            (bay_at self.now (bay_of self.now.diagram id.0)) }
    {
        let bay = switch_bay(self.station, id);
        let graphs = self.bay(bay);
        let place = usize::from(id.0 - graphs.first);
        &graphs.load.inner[place]
    }
}
