//! The judge that decides by decision graphs.
ghost use Rattle.std.specs.Prelude.{◌≡◌};

use crate::all_words::possible_by;
use crate::build::{GraphJudge, switch_bay};
use crate::by_words::{judge_words, reach_words};
use crate::heard::judge_heard;
use crate::summary::{is_index_set, summary_of};
use crate::told::is_partner;
use central_rules::{Judge, Verdict};
use double_points::Readings;
use ilk_base::{BayId, HeardList, Memory, Op, Summary};
use std::alloc::Global;

/// A bay tells another exactly where it is a partner of it: the set of its indices, as few bytes as hold a bit for each
/// index of the bay, index 0 in the highest bit of the first byte, and spare bits 0. Else its summary is empty. Time of
/// a verdict: the edges of the bay's outer graphs, of which labels are one that no inner one tells apart, and of the
/// switch's inner ones, and the steps of the parts; memory for their nodes, and for the indices of the parts.
impl<'a> Judge for GraphJudge<'a> {
    ghost use Rattle.release_compile.specs.Summaries.{judges};
    ghost use Rattle.release_compile.specs.Judging.{ground};
    ghost use Rattle.release_compile.specs.Lawful.{by_indices_lawful};

    ghost meaning = { judges };

    fn tells(&self, bay: BayId, to: BayId) -> bool {
        is_partner(self, bay, to)
    }

    fn summarise(
        &self,
        alloc: Global,
        bay: BayId,
        to: BayId,
        readings: &Readings,
    ) -> Result<Summary, Memory> {
        self.diagram_is_station();
        if !is_partner(self, bay, to) {
            return Ok(Summary::empty());
        }
        let summary = summary_of(alloc, self.parts(), bay, readings)?;
        Ok(summary)
    }

    fn fits(&self, bay: BayId, to: BayId, summary: &Summary) -> bool {
        if !is_partner(self, bay, to) {
            return summary.bytes().is_empty();
        }
        let size = self.parts().size(bay);
        is_index_set(size, summary)
    }

    fn judge(
        &self,
        alloc: Global,
        op: Op,
        own: &Readings,
        heard: &HeardList,
    ) -> Result<Verdict, Memory> {
        let station = self.station();
        let bay = switch_bay(station, op.switch);
        let graphs = self.bay(bay);
        let verdict = judge_heard(alloc, station, self.parts(), graphs, bay, op, own, heard)?;
        Ok(verdict)
    }

    fn judge_all(&self, alloc: Global, op: Op, readings: &Readings) -> Result<Verdict, Memory> {
        let station = self.station();
        let bay = switch_bay(station, op.switch);
        let graphs = self.bay(bay);
        let parts = self.parts();
        let all = possible_by(alloc, station, parts, readings)?;
        let reached = reach_words(alloc, station, parts, graphs, bay, &all)?;
        let verdict = judge_words(alloc, station, parts, graphs, bay, op, &all, &reached)?;
        Ok(verdict)
    }

    fn diagram_is_station(&self) {
        let _count = self.station().part_count();
    }

    ghost lawful = { λ j. by_indices_lawful (ground j) };
}
