//! The command `compile`.
use crate::answer::Answer;
use crate::end::{End, Outcome, Output};
use crate::out_text::OutText;
use ilk_base::Shelf;
use release_compile::GraphJudge;
use station_equations::compile_text;
use station_graph::Station;
use std::alloc::Global;

// `compile STATION`
#[derive(Clone, Copy)]
pub(crate) struct Compile;

impl Answer for Compile {
    ghost use Rattle.std.specs.Prelude.{[]};
    ghost use Rattle.interlock_cli.specs.Rests.{compile_rest};

    ghost rest = { λ _. compile_rest };

    ghost names = { λ _. [] };

    #[tactic(auto, using(crate::proofs::Asked::reads_none))]
    fn answer<F: Shelf>(
        &self,
        alloc: Global,
        station: &Station,
        judge: &GraphJudge<'_>,
        _shelf: &mut F,
    ) -> Result<Output, End> {
        let text = compile_text(alloc, station, judge)?;
        Ok(Output {
            outcome: Outcome::Done,
            text: OutText::whole(text),
        })
    }
}
