//! The command `why`.
use crate::answer::Answer;
use crate::command::AskedOperation;
use crate::content::load;
use crate::end::{End, Outcome, Output};
use crate::loading::named_switch;
use crate::out_text::OutText;
use double_points::Readings;
use ilk_base::{Op, Shelf};
use release_compile::GraphJudge;
use station_graph::Station;
use std::alloc::Global;
use why_text::why_text;

// `why STATION POSITIONS open SWITCH`, or `close`
#[derive(Clone, Copy)]
pub(crate) struct Why<'a> {
    pub asked: AskedOperation<'a>,
}

impl<'a> Answer for Why<'a> {
    ghost use Rattle.std.specs.Prelude.{[], ◌∷◌};
    ghost use Rattle.interlock_cli.specs.Rests.{why_rest};

    ghost rest = { λ command. why_rest command.asked.positions.now command.asked.direction command.asked.switch.now };

    ghost names = { λ command. command.asked.positions.now ∷ [] };

    fn answer<F: Shelf>(
        &self,
        alloc: Global,
        station: &Station,
        judge: &GraphJudge<'_>,
        shelf: &mut F,
    ) -> Result<Output, End> {
        let readings: Readings = load(alloc, station, self.asked.positions, shelf)?;
        let op = Op {
            switch: named_switch(station, self.asked.switch)?,
            direction: self.asked.direction,
        };
        let text = why_text(alloc, station, judge, &readings, op)?;
        Ok(Output {
            outcome: Outcome::Done,
            text: OutText::whole(text),
        })
    }
}
