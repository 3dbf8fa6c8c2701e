//! The command `check`.
use crate::answer::Answer;
use crate::content::load;
use crate::end::{End, Outcome, Output};
use crate::out_text::OutText;
use double_points::Readings;
use ilk_base::Shelf;
use release_compile::GraphJudge;
use release_texts::check_lines;
use station_graph::Station;
use std::alloc::Global;

// `check STATION POSITIONS`
#[derive(Clone, Copy)]
pub(crate) struct Check<'a> {
    pub positions: &'a str,
}

impl<'a> Answer for Check<'a> {
    ghost use Rattle.std.specs.Prelude.{[], ◌∷◌};
    ghost use Rattle.interlock_cli.specs.Rests.{check_rest};

    ghost rest = { λ command. check_rest command.positions.now };

    ghost names = { λ command. command.positions.now ∷ [] };

    fn answer<F: Shelf>(
        &self,
        alloc: Global,
        station: &Station,
        judge: &GraphJudge<'_>,
        shelf: &mut F,
    ) -> Result<Output, End> {
        let readings: Readings = load(alloc, station, self.positions, shelf)?;
        let lines = check_lines(alloc, station, judge, &readings)?;
        let text = OutText::named(alloc, lines)?;
        Ok(Output {
            outcome: Outcome::Done,
            text,
        })
    }
}
