//! The command `replay`.
ghost use Rattle.std.specs.Prelude.{◌≡◌, All, IfOk};
ghost use Rattle.part_alphabets.specs.Alphabets.{AreAlphabets};
ghost use Rattle.log_replay.specs.Records.{MayBeTold};
ghost use Rattle.log_replay.specs.Telling.{PathsAreLines};
ghost use Rattle.interlock_cli.specs.ReplayWrites.{replay_outcome, ReplayWrites};

use crate::answer::Answer;
use crate::content::load;
use crate::end::{End, Outcome, Output};
use crate::out_text::OutText;
use ilk_base::{Memory, Shelf};
use log_replay::{Log, text_decides_report};
use release_compile::GraphJudge;
use reservation_core::Which;
use station_graph::Station;
use std::alloc::Global;

// How a replay ends.
pub(crate) fn ended(premise: Option<(u32, Which)>) -> Outcome
    ensures { result ≡ replay_outcome premise }
{
    match premise {
        Some((line, which)) => Outcome::Premise {
            number: which.number(),
            line,
        },
        None => Outcome::Done,
    }
}

// The report of the log, as it is written.
fn replay_output(
    alloc: Global,
    station: &Station,
    log: &Log,
    judge: &GraphJudge<'_>,
) -> Result<Output, Memory>
    requires same { judge.now.diagram ≡ station.now }
    requires alphabets { AreAlphabets judge.now.diagram judge.now.alphabets }
    requires log { All (MayBeTold station.now) log.now }
    requires lines { PathsAreLines station.now }
    ensures { IfOk result (λ o. ReplayWrites station.now log.now o.outcome o.text) }
{
    // Its clause is used; it does nothing.
    text_decides_report(station);
    let report = log_replay::replay(alloc, station, log, judge)?;
    let text = report.text(alloc, station)?;
    Ok(Output {
        outcome: ended(report.premise()),
        text: OutText::whole(text),
    })
}

// `replay STATION LOG`
#[derive(Clone, Copy)]
pub(crate) struct Replay<'a> {
    pub log: &'a str,
}

impl<'a> Answer for Replay<'a> {
    ghost use Rattle.std.specs.Prelude.{[], ◌∷◌};
    ghost use Rattle.interlock_cli.specs.Rests.{replay_rest};

    ghost rest = { λ command. replay_rest command.log.now };

    ghost names = { λ command. command.log.now ∷ [] };

    fn answer<F: Shelf>(
        &self,
        alloc: Global,
        station: &Station,
        judge: &GraphJudge<'_>,
        shelf: &mut F,
    ) -> Result<Output, End> {
        let log: Log = load(alloc, station, self.log, shelf)?;
        Ok(replay_output(alloc, station, &log, judge)?)
    }
}
