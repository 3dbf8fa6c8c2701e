//! The command `plan`.
use crate::answer::Answer;
use crate::end::{End, Outcome, Output};
use crate::out_text::OutText;
use exchange_plan::plan_text;
use ilk_base::Shelf;
use release_compile::GraphJudge;
use station_graph::Station;
use std::alloc::Global;

// `plan STATION`
#[derive(Clone, Copy)]
pub(crate) struct Plan;

impl Answer for Plan {
    ghost use Rattle.std.specs.Prelude.{[]};
    ghost use Rattle.interlock_cli.specs.Rests.{plan_rest};

    ghost rest = { λ _. plan_rest };

    ghost names = { λ _. [] };

    #[tactic(auto, using(crate::proofs::Asked::reads_none))]
    fn answer<F: Shelf>(
        &self,
        alloc: Global,
        station: &Station,
        judge: &GraphJudge<'_>,
        _shelf: &mut F,
    ) -> Result<Output, End> {
        let text = plan_text(alloc, station, judge)?;
        Ok(Output {
            outcome: Outcome::Done,
            text: OutText::whole(text),
        })
    }
}
