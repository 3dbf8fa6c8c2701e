//! The command `state`.
use crate::answer::Answer;
use crate::content::load;
use crate::end::{End, Outcome, Output};
use crate::out_text::OutText;
use double_points::Readings;
use ilk_base::Shelf;
use release_compile::GraphJudge;
use station_graph::Station;
use station_state::state_text;
use std::alloc::Global;

// `state STATION POSITIONS`
#[derive(Clone, Copy)]
pub(crate) struct State<'a> {
    pub positions: &'a str,
}

impl<'a> Answer for State<'a> {
    ghost use Rattle.std.specs.Prelude.{[], ◌∷◌};
    ghost use Rattle.interlock_cli.specs.Rests.{state_rest};

    ghost rest = { λ command. state_rest command.positions.now };

    ghost names = { λ command. command.positions.now ∷ [] };

    fn answer<F: Shelf>(
        &self,
        alloc: Global,
        station: &Station,
        _judge: &GraphJudge<'_>,
        shelf: &mut F,
    ) -> Result<Output, End> {
        let readings: Readings = load(alloc, station, self.positions, shelf)?;
        let text = state_text(alloc, station, &readings)?;
        Ok(Output {
            outcome: Outcome::Done,
            text: OutText::whole(text),
        })
    }
}
