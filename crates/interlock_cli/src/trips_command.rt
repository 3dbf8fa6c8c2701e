//! The command `trips`.
ghost use Rattle.std.specs.Prelude.{◌≡◌, All, IfOk};
ghost use Rattle.part_alphabets.specs.Alphabets.{AreAlphabets};
ghost use Rattle.log_replay.specs.Telling.{PathsAreLines};
ghost use Rattle.trip_replay.specs.TripRecords.{TripMayBeTold};
ghost use Rattle.interlock_cli.specs.TripsWrites.{TripsWrites};

use crate::answer::Answer;
use crate::content::load;
use crate::end::{End, Output};
use crate::out_text::OutText;
use crate::replay_command::ended;
use ilk_base::{Memory, Shelf};
use log_replay::text_decides_report;
use release_compile::GraphJudge;
use station_graph::Station;
use std::alloc::Global;
use trip_replay::{TripLog, replay_trips};

// The report of the log, as it is written.
fn trips_output(
    alloc: Global,
    station: &Station,
    log: &TripLog,
    judge: &GraphJudge<'_>,
) -> Result<Output, Memory>
    requires same { judge.now.diagram ≡ station.now }
    requires alphabets { AreAlphabets judge.now.diagram judge.now.alphabets }
    requires log { All (TripMayBeTold station.now) log.now }
    requires lines { PathsAreLines station.now }
    ensures { IfOk result (λ o. TripsWrites station.now log.now o.outcome o.text) }
{
    // Its clause is used; it does nothing.
    text_decides_report(station);
    let report = replay_trips(alloc, station, log, judge)?;
    let text = report.text(alloc, station)?;
    Ok(Output {
        outcome: ended(report.premise()),
        text: OutText::whole(text),
    })
}

// `trips STATION LOG`
#[derive(Clone, Copy)]
pub(crate) struct Trips<'a> {
    pub log: &'a str,
}

impl<'a> Answer for Trips<'a> {
    ghost use Rattle.std.specs.Prelude.{[], ◌∷◌};
    ghost use Rattle.interlock_cli.specs.Rests.{trips_rest};

    ghost rest = { λ command. trips_rest command.log.now };

    ghost names = { λ command. command.log.now ∷ [] };

    fn answer<F: Shelf>(
        &self,
        alloc: Global,
        station: &Station,
        judge: &GraphJudge<'_>,
        shelf: &mut F,
    ) -> Result<Output, End> {
        let log: TripLog = load(alloc, station, self.log, shelf)?;
        Ok(trips_output(alloc, station, &log, judge)?)
    }
}
