//! The command `program`.
ghost use Rattle.std.specs.Prelude.{◌≡◌, IfOk};
ghost use Rattle.program_text.specs.BayText.{IsBayProgramText};
ghost use Rattle.interlock_cli.specs.declared.end.Outcome.TheVariants.{Done};

use crate::answer::Answer;
use crate::end::{End, Outcome, Output};
use crate::loading::named_bay;
use crate::out_text::OutText;
use ilk_base::{BayId, Memory, Shelf};
use program_text::{bay_program_text, program_text};
use release_compile::GraphJudge;
use station_graph::Station;
use std::alloc::Global;

// `program STATION`
#[derive(Clone, Copy)]
pub(crate) struct Program;

impl Answer for Program {
    ghost use Rattle.std.specs.Prelude.{[]};
    ghost use Rattle.interlock_cli.specs.Rests.{program_rest};

    ghost rest = { λ _. program_rest };

    ghost names = { λ _. [] };

    #[tactic(auto, using(crate::proofs::Asked::reads_none))]
    fn answer<F: Shelf>(
        &self,
        alloc: Global,
        station: &Station,
        _judge: &GraphJudge<'_>,
        _shelf: &mut F,
    ) -> Result<Output, End> {
        let text = program_text(alloc, station)?;
        Ok(Output {
            outcome: Outcome::Done,
            text: OutText::whole(text),
        })
    }
}

// What has to be written of a bay.
fn bay_output(alloc: Global, station: &Station, bay: BayId) -> Result<Output, Memory>
    ensures { IfOk result (λ o. (o.outcome ≡ Done) × IsBayProgramText station.now bay.0 o.text) }
{
    let text = bay_program_text(alloc, station, bay)?;
    Ok(Output {
        outcome: Outcome::Done,
        text: OutText::whole(text),
    })
}

// `program STATION BAY`
#[derive(Clone, Copy)]
pub(crate) struct BayProgram<'a> {
    pub bay: &'a str,
}

impl<'a> Answer for BayProgram<'a> {
    ghost use Rattle.std.specs.Prelude.{[]};
    ghost use Rattle.interlock_cli.specs.Rests.{bay_program_rest};

    ghost rest = { λ command. bay_program_rest command.bay.now };

    ghost names = { λ _. [] };

    #[tactic(auto, using(crate::proofs::Asked::reads_none))]
    fn answer<F: Shelf>(
        &self,
        alloc: Global,
        station: &Station,
        _judge: &GraphJudge<'_>,
        _shelf: &mut F,
    ) -> Result<Output, End> {
        let bay = named_bay(station, self.bay)?;
        let output = bay_output(alloc, station, bay)?;
        Ok(output)
    }
}
