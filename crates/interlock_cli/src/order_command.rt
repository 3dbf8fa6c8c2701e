//! The command `order`.
ghost use Rattle.std.specs.Prelude.{◌≡◌};
ghost use Rattle.interlock_cli.specs.OrderWrites.{done_or_differs};

use crate::answer::Answer;
use crate::content::load;
use crate::end::{End, Outcome, Output};
use crate::out_text::OutText;
use ilk_base::Shelf;
use release_compile::GraphJudge;
use station_graph::{Station, Vector};
use std::alloc::Global;
use switching_orders::{Order as Steps, order_text};

// How a call ends that has found a difference from the rules, or none.
pub(crate) fn outcome_of(differs: bool) -> Outcome
    ensures { result ≡ done_or_differs differs }
{
    match differs {
        false => Outcome::Done,
        true => Outcome::Differs,
    }
}

// `order STATION POSITIONS ORDER`
#[derive(Clone, Copy)]
pub(crate) struct Order<'a> {
    pub positions: &'a str,
    pub order: &'a str,
}

impl<'a> Answer for Order<'a> {
    ghost use Rattle.std.specs.Prelude.{[], ◌∷◌};
    ghost use Rattle.interlock_cli.specs.Rests.{order_rest};

    ghost rest = { λ command. order_rest command.positions.now command.order.now };

    ghost names = { λ command. command.positions.now ∷ command.order.now ∷ [] };

    fn answer<F: Shelf>(
        &self,
        alloc: Global,
        station: &Station,
        _judge: &GraphJudge<'_>,
        shelf: &mut F,
    ) -> Result<Output, End> {
        let start: Vector = load(alloc, station, self.positions, shelf)?;
        let steps: Steps = load(alloc, station, self.order, shelf)?;
        let report = order_text(alloc, station, &start, &steps)?;
        Ok(Output {
            outcome: outcome_of(report.differs),
            text: OutText::whole(report.text),
        })
    }
}
