//! The command `audit`.
ghost use Rattle.std.specs.Prelude.{◌≡◌, IfOk};
ghost use Rattle.equation_audit.specs.Equations.{AreOfStation};
ghost use Rattle.interlock_cli.specs.AuditWrites.{AuditWrites};

use crate::answer::Answer;
use crate::content::load;
use crate::end::{End, Output};
use crate::order_command::outcome_of;
use crate::out_text::OutText;
use central_rules::Judge;
use equation_audit::Blocks;
use ilk_base::{Memory, Shelf};
use release_compile::GraphJudge;
use station_graph::Station;
use std::alloc::Global;

// What is found of the blocks, as it is written.
fn audit_output<J: Judge>(
    alloc: Global,
    station: &Station,
    blocks: &Blocks,
    judge: &J,
) -> Result<Output, Memory>
    requires same { (J.meaning judge.now).diagram ≡ station.now }
    requires blocks { AreOfStation station.now blocks.now }
    ensures { IfOk result (λ o. AuditWrites station.now blocks.now o.outcome o.text) }
{
    let found = equation_audit::audit(alloc, station, blocks, judge)?;
    let lines = found.lines(alloc, station)?;
    let text = OutText::named(alloc, lines)?;
    Ok(Output {
        outcome: outcome_of(found.differs()),
        text,
    })
}

// `audit STATION EQUATIONS`
#[derive(Clone, Copy)]
pub(crate) struct Audit<'a> {
    pub equations: &'a str,
}

impl<'a> Answer for Audit<'a> {
    ghost use Rattle.std.specs.Prelude.{[], ◌∷◌};
    ghost use Rattle.interlock_cli.specs.Rests.{audit_rest};

    ghost rest = { λ command. audit_rest command.equations.now };

    ghost names = { λ command. command.equations.now ∷ [] };

    fn answer<F: Shelf>(
        &self,
        alloc: Global,
        station: &Station,
        judge: &GraphJudge<'_>,
        shelf: &mut F,
    ) -> Result<Output, End> {
        let blocks: Blocks = load(alloc, station, self.equations, shelf)?;
        Ok(audit_output(alloc, station, &blocks, judge)?)
    }
}
