//! The verdict by what a bay has heard.
ghost use Rattle.std.specs.Prelude.{◌≡◌, ◌<◌, length, IfOk};
ghost use Rattle.station_graph.specs.Diagram.{part_count};
ghost use Rattle.station_graph.specs.Connection.{a_switch};
ghost use Rattle.station_graph.specs.Sharing.{OfPart};
ghost use Rattle.double_points.specs.Words.{AreWords};
ghost use Rattle.central_rules.specs.Readings.{Decides};
ghost use Rattle.central_rules.specs.Meaning.{CannotExclude, HeardFit};
ghost use Rattle.part_alphabets.specs.Alphabets.{AreAlphabets};
ghost use Rattle.decision_graphs.specs.Reaching.{AreSetsOf};
ghost use Rattle.judge_pool.specs.Lettered.{lettered};
ghost use Rattle.judge_graphs.specs.Built.{AreBayGraphs};
ghost use Rattle.judge_graphs.specs.BuiltView.{seen_bay};
ghost use Rattle.release_compile.specs.Summaries.{by_indices, AreHeardSets};

use crate::decide::vector_of;
use crate::denying::find_denial;
use crate::sets::heard_sets;
use crate::sides::place_of;
use bay_contract::Parts;
use central_rules::Verdict;
use decision_graphs::ChoiceSets;
use double_points::Readings;
use ilk_base::{BayId, HeardList, Memory, Op};
use judge_graphs::BayGraphs;
use station_graph::Station;
use std::alloc::Global;

// The indices of each other part that what the bay has heard of it allows.
fn sets_heard(
    alloc: Global,
    station: &Station,
    parts: &Parts,
    graphs: &BayGraphs,
    bay: BayId,
    heard: &HeardList,
) -> Result<ChoiceSets, Memory>
    requires lettered { AreAlphabets station.now parts.now }
    requires graphs { AreBayGraphs (lettered station.now parts.now) bay.0 (seen_bay graphs.now) }
    requires bay { bay.0 < part_count station.now }
    requires heard { length heard.now ≡ part_count station.now }
    requires fits { HeardFit (by_indices (lettered station.now parts.now)) bay.0 heard.now }
    ensures sets { IfOk result (AreHeardSets (lettered station.now parts.now) bay.0 heard.now) }
    ensures gap { IfOk result (AreSetsOf graphs.now.gap.merged.value.layers) }
    ensures load { IfOk result (AreSetsOf graphs.now.load.merged.value.layers) }
{
    let others = station.part_count() - 1;
    let sets = heard_sets(
        alloc,
        station,
        parts,
        graphs.gap.merged.as_ref(),
        bay,
        others,
        heard,
    )?;
    Ok(sets)
}

// The verdict by what the bay has heard.
pub(crate) fn judge_heard(
    alloc: Global,
    station: &Station,
    parts: &Parts,
    graphs: &BayGraphs,
    bay: BayId,
    op: Op,
    own: &Readings,
    heard: &HeardList,
) -> Result<Verdict, Memory>
    requires lettered { AreAlphabets station.now parts.now }
    requires graphs { AreBayGraphs (lettered station.now parts.now) bay.0 (seen_bay graphs.now) }
    requires bay { bay.0 < part_count station.now }
    requires part { OfPart station.now bay.0 (a_switch op.switch.0) }
    requires own { AreWords station.now own.now }
    requires heard { length heard.now ≡ part_count station.now }
    requires fits { HeardFit (by_indices (lettered station.now parts.now)) bay.0 heard.now }
    ensures { IfOk result (Decides station.now
        (CannotExclude (by_indices (lettered station.now parts.now)) bay.0 own.now heard.now) op) }
{
    let _count = station.part_count();
    let sets = sets_heard(alloc, station, parts, graphs, bay, heard)?;
    let place = place_of(station, bay, graphs, op.switch);
    match find_denial(alloc, station, parts, graphs, place, op, own, &sets)? {
        None => Ok(Verdict::Release),
        Some(found) => {
            let reading = vector_of(alloc, station, parts, place, op, None, own, &found.choices)?;
            Ok(Verdict::Denied {
                rule: found.rule,
                reading,
            })
        }
    }
}
