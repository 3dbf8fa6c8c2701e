//! What a command does once it has the station of its drawing; and the reading of that drawing, once for all.
ghost use Rattle.std.specs.Prelude.{◌≡◌, ◌⊎◌, ◌∷◌, ℕ, List, IfOk, IfErr};
ghost use Rattle.station_graph.specs.Diagram.{Diagram};
ghost use Rattle.part_alphabets.specs.Alphabets.{AreAlphabets};
ghost use Rattle.release_compile.specs.Judging.{KeepsLimits};
ghost use Rattle.log_replay.specs.Telling.{PathsAreLines};
ghost use Rattle.interlock_cli.specs.Formats.{Drawing};
ghost use Rattle.interlock_cli.specs.Files.{files, Reads};
ghost use Rattle.interlock_cli.specs.Form.{Form, Take, File, Gives, FormStops};
ghost use Rattle.interlock_cli.specs.Judging.{BuildFails};

use crate::end::{End, Output};
use crate::loading::{build_judge, load_drawing};
use ilk_base::Shelf;
use release_compile::GraphJudge;
use station_graph::Station;
use std::alloc::Global;

// A command, as the words say it that follow the name of its drawing.
pub(crate) trait Answer {
    // The rest of its form, for the station of the drawing.
    ghost rest: { Self → Diagram → Form };

    // The files that it is given beside the drawing.
    ghost names: { Self → List (List ℕ) };

    // What it has to write, or how the call ends before it writes.
    fn answer<F: Shelf>(
        &self,
        alloc: Global,
        station: &Station,
        judge: &GraphJudge<'_>,
        shelf: &mut F,
    ) -> Result<Output, End>
        requires same { judge.now.diagram ≡ station.now }
        requires alphabets { AreAlphabets judge.now.diagram judge.now.alphabets }
        requires lines { PathsAreLines station.now }
        ensures ok { IfOk result (Gives (rest self.now station.now) (F.held shelf.old)) }
        ensures err { IfErr result (FormStops (rest self.now station.now) (F.held shelf.old) (F.faults shelf.old)
            (F.faults shelf.new)) }
        ensures reads { Reads (names self.now)
            (files (F.held shelf.old) (F.faults shelf.old) (F.asked shelf.old))
            (files (F.held shelf.new) (F.faults shelf.new) (F.asked shelf.new)) };
}

// What a command has to write over this station, once it has its judge.
#[tactic(auto, using(crate::proofs::Asked::reads_none))]
pub(crate) fn answer_station<A: Answer, F: Shelf>(
    alloc: Global,
    station: Station,
    command: &A,
    shelf: &mut F,
) -> Result<Output, End>
    requires { PathsAreLines station }
    ensures ok { IfOk result (λ output. KeepsLimits station × Gives (A.rest command.now station) (F.held shelf.old)
        output) }
    ensures err { IfErr result (λ end. BuildFails station end ⊎ (KeepsLimits station
        × FormStops (A.rest command.now station) (F.held shelf.old) (F.faults shelf.old) (F.faults shelf.new) end)) }
    ensures reads { Reads (A.names command.now)
        (files (F.held shelf.old) (F.faults shelf.old) (F.asked shelf.old))
        (files (F.held shelf.new) (F.faults shelf.new) (F.asked shelf.new)) }
{
    let judge = build_judge(alloc, &station)?;
    command.answer(alloc, &station, &judge, shelf)
}

// What a command has to write whose drawing is the file of this name.
pub(crate) fn answer_drawing<A: Answer, F: Shelf>(
    alloc: Global,
    name: &str,
    command: &A,
    shelf: &mut F,
) -> Result<Output, End>
    ensures ok { IfOk result (Gives (Take (File name.now) Drawing (A.rest command.now)) (F.held shelf.old)) }
    ensures err { IfErr result (FormStops (Take (File name.now) Drawing (A.rest command.now)) (F.held shelf.old)
        (F.faults shelf.old) (F.faults shelf.new)) }
    ensures reads { Reads (name.now ∷ A.names command.now)
        (files (F.held shelf.old) (F.faults shelf.old) (F.asked shelf.old))
        (files (F.held shelf.new) (F.faults shelf.new) (F.asked shelf.new)) }
{
    let station = load_drawing(alloc, name, shelf)?;
    answer_station(alloc, station, command, shelf)
}
