//! How many operations of a station are released.
ghost use Rattle.std.specs.Prelude.{◌≡◌, ◌<◌, ◌+◌, ◌^◌, ◌∷◌, [], count_by, replicate, None, IfOk};
ghost use Rattle.station_graph.specs.Diagram.{part_count};
ghost use Rattle.station_graph.specs.CentralRules.{IsOperation};
ghost use Rattle.double_points.specs.Words.{AreWords};
ghost use Rattle.central_rules.specs.Readings.{Decides};
ghost use Rattle.station_work.specs.Tallying.{Sees, TalliesAll, is_release, is_denial};

use central_rules::{Judge, Verdict};
use double_points::Readings;
use ilk_base::{Direction, HeardList, Memory, Op, SwitchId};
use station_graph::Station;
use std::alloc::Global;

/// What is known where an operation is judged.
#[derive(Clone, Copy, PartialEq, Eq)]
pub enum Sight {
    /// the words of all switches
    Full,
    /// the words of the operation's bay alone
    Blind,
}

/// How many operations are released, and how many are denied.
#[derive(Clone, Copy, PartialEq, Eq)]
pub struct Tally {
    /// those that are released
    pub released: u32,
    /// those that are denied
    pub denied: u32,
}

// The verdict on an operation; nothing was heard of another bay.
fn verdict<J: Judge>(
    alloc: Global,
    station: &Station,
    judge: &J,
    sight: Sight,
    readings: &Readings,
    heard: &HeardList,
    op: Op,
) -> Result<Verdict, Memory>
    requires same { (J.meaning judge.now).diagram ≡ station.now }
    requires words { AreWords station.now readings.now }
    requires heard { heard.now ≡ replicate (part_count station.now) None }
    requires op { IsOperation station.now op }
    ensures { IfOk result (Decides station.now (Sees sight station.now readings.now op) op) }
{
    let _ = station;
    match sight {
        Sight::Full => judge.judge_all(alloc, op, readings),
        Sight::Blind => judge.judge(alloc, op, readings, heard),
    }
}

impl Tally {
    // Counts a verdict more.
    fn count(&mut self, verdict: &Verdict)
        requires { self.old.released + self.old.denied + 1 < 2 ^ 32 }
        ensures released { self.new.released ≡ self.old.released + count_by is_release (verdict.now ∷ []) }
        ensures denied { self.new.denied ≡ self.old.denied + count_by is_denial (verdict.now ∷ []) }
        ensures sum { self.new.released + self.new.denied ≡ self.old.released + self.old.denied + 1 }
    {
        match verdict {
            Verdict::Release => self.released += 1,
            Verdict::Denied { .. } => self.denied += 1,
        }
    }
}

/// Counts the verdicts on opening and closing each switch. Time: two verdicts of the judge for each switch.
/// Memory: one verdict, and where the sight is blind the parts.
pub fn tally_operations<J: Judge>(
    alloc: Global,
    station: &Station,
    judge: &J,
    sight: Sight,
    readings: &Readings,
) -> Result<Tally, Memory>
    requires same { (J.meaning judge.now).diagram ≡ station.now }
    requires words { AreWords station.now readings.now }
    ensures { IfOk result (TalliesAll sight station.now readings.now) }
{
    let heard = HeardList::none(alloc, station.part_count() as u8)?;
    let mut tally = Tally {
        released: 0,
        denied: 0,
    };
    for i in 0..station.switch_count() {
        let open = Op {
            switch: SwitchId(i),
            direction: Direction::ToOff,
        };
        let close = Op {
            switch: SwitchId(i),
            direction: Direction::ToOn,
        };
        let opening = verdict(alloc, station, judge, sight, readings, &heard, open)?;
        let closing = verdict(alloc, station, judge, sight, readings, &heard, close)?;
        tally.count(&opening);
        tally.count(&closing);
    }
    Ok(tally)
}
