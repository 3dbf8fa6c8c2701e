//! The command `work`.
ghost use Rattle.std.specs.Prelude.{◌≡◌, [], All, IfOk, IfErr};
ghost use Rattle.part_alphabets.specs.Alphabets.{AreAlphabets};
ghost use Rattle.double_points.specs.Words.{AreWords};
ghost use Rattle.log_replay.specs.Records.{MayBeTold};
ghost use Rattle.interlock_cli.specs.Commands.{Work, form_of};
ghost use Rattle.interlock_cli.specs.Files.{files, Reads};
ghost use Rattle.interlock_cli.specs.Form.{Gives, FormStops};
ghost use Rattle.interlock_cli.specs.WorkWrites.{WorkWrites};

use crate::answer::{Answer, answer_station};
use crate::content::Content;
use crate::end::{End, Output};
use crate::loading::judge_drawing;
use crate::out_text::OutText;
use crate::replay_command::ended;
use double_points::Readings;
use ilk_base::{Memory, Shelf};
use log_replay::Log;
use release_compile::GraphJudge;
use station_graph::Station;
use station_make::{Feeders, make};
use station_work::work_text;
use std::alloc::Global;

// The four lines of what was read.
fn work_output(
    alloc: Global,
    station: &Station,
    judge: &GraphJudge<'_>,
    readings: &Readings,
    log: &Log,
) -> Result<Output, Memory>
    requires same { judge.now.diagram ≡ station.now }
    requires alphabets { AreAlphabets judge.now.diagram judge.now.alphabets }
    requires words { AreWords station.now readings.now }
    requires log { All (MayBeTold station.now) log.now }
    ensures { IfOk result (λ o. WorkWrites station.now readings.now log.now o.outcome o.text) }
{
    let report = log_replay::replay(alloc, station, log, judge)?;
    let text = work_text(alloc, station, judge, readings, &report)?;
    Ok(Output {
        outcome: ended(report.premise()),
        text: OutText::whole(text),
    })
}

// The texts that `work` reads beside its drawing.
#[derive(Clone, Copy)]
struct MadeFiles<'a> {
    positions: &'a [u8],
    log: &'a [u8],
}

impl<'a> Answer for MadeFiles<'a> {
    ghost use Rattle.std.specs.Prelude.{[]};
    ghost use Rattle.interlock_cli.specs.Rests.{work_rest};

    ghost rest = { λ made. work_rest made.positions.now made.log.now };

    ghost names = { λ _. [] };

    #[tactic(auto, using(crate::proofs::Asked::reads_none))]
    fn answer<F: Shelf>(
        &self,
        alloc: Global,
        station: &Station,
        judge: &GraphJudge<'_>,
        _shelf: &mut F,
    ) -> Result<Output, End> {
        let readings = Readings::judge(alloc, station, self.positions)?;
        let log = Log::judge(alloc, station, self.log)?;
        Ok(work_output(alloc, station, judge, &readings, &log)?)
    }
}

// What `work NUMBER` has to write. It is given no file: its texts are made, and then read as those of files are.
pub(crate) fn work<F: Shelf>(alloc: Global, feeders: Feeders, shelf: &mut F) -> Result<Output, End>
    ensures ok { IfOk result (Gives (form_of (Work feeders.number)) (F.held shelf.old)) }
    ensures err { IfErr result (FormStops (form_of (Work feeders.number)) (F.held shelf.old) (F.faults shelf.old)
        (F.faults shelf.new)) }
    ensures reads { Reads []
        (files (F.held shelf.old) (F.faults shelf.old) (F.asked shelf.old))
        (files (F.held shelf.new) (F.faults shelf.new) (F.asked shelf.new)) }
{
    let made = make(alloc, feeders.number)?;
    let station = judge_drawing(alloc, made.station.bytes())?;
    let files = MadeFiles {
        positions: made.positions.bytes(),
        log: made.events.bytes(),
    };
    answer_station(alloc, station, &files, shelf)
}
