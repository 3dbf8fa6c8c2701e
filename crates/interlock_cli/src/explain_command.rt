//! The command `explain`.
use crate::answer::Answer;
use crate::command::AskedOperation;
use crate::content::load;
use crate::end::{End, Outcome, Output};
use crate::loading::named_switch;
use crate::out_text::OutText;
use double_points::Readings;
use ilk_base::{Op, Shelf};
use release_compile::GraphJudge;
use release_texts::{denial_lines, explain_text};
use station_graph::Station;
use std::alloc::Global;

// `explain STATION POSITIONS open SWITCH`, or `close`
#[derive(Clone, Copy)]
pub(crate) struct Explain<'a> {
    pub asked: AskedOperation<'a>,
}

impl<'a> Answer for Explain<'a> {
    ghost use Rattle.std.specs.Prelude.{[], ◌∷◌};
    ghost use Rattle.interlock_cli.specs.Rests.{explain_rest};

    ghost rest = { λ command. explain_rest command.asked.positions.now command.asked.direction command.asked.switch.now };

    ghost names = { λ command. command.asked.positions.now ∷ [] };

    fn answer<F: Shelf>(
        &self,
        alloc: Global,
        station: &Station,
        judge: &GraphJudge<'_>,
        shelf: &mut F,
    ) -> Result<Output, End> {
        let readings: Readings = load(alloc, station, self.asked.positions, shelf)?;
        let op = Op {
            switch: named_switch(station, self.asked.switch)?,
            direction: self.asked.direction,
        };
        let text = explain_text(alloc, station, judge, &readings, op)?;
        Ok(Output {
            outcome: Outcome::Done,
            text: OutText::whole(text),
        })
    }
}

// `explain STATION POSITIONS`
#[derive(Clone, Copy)]
pub(crate) struct Denials<'a> {
    pub positions: &'a str,
}

impl<'a> Answer for Denials<'a> {
    ghost use Rattle.std.specs.Prelude.{[], ◌∷◌};
    ghost use Rattle.interlock_cli.specs.Rests.{denials_rest};

    ghost rest = { λ command. denials_rest command.positions.now };

    ghost names = { λ command. command.positions.now ∷ [] };

    fn answer<F: Shelf>(
        &self,
        alloc: Global,
        station: &Station,
        judge: &GraphJudge<'_>,
        shelf: &mut F,
    ) -> Result<Output, End> {
        let readings: Readings = load(alloc, station, self.positions, shelf)?;
        let lines = denial_lines(alloc, station, judge, &readings)?;
        let text = OutText::named(alloc, lines)?;
        Ok(Output {
            outcome: Outcome::Done,
            text,
        })
    }
}
