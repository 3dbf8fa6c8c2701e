//! The command `compare`.
ghost use Rattle.std.specs.Prelude.{◌≡◌, ◌⊎◌, IfOk, IfErr};
ghost use Rattle.release_compile.specs.Judging.{KeepsLimits};
ghost use Rattle.interlock_cli.specs.CompareWrites.{CompareWrites};
ghost use Rattle.interlock_cli.specs.Judging.{BuildFails};
ghost use Rattle.interlock_cli.specs.declared.end.End.TheVariants.{Memory as WantsMemory};

use crate::answer::Answer;
use crate::end::{End, Outcome, Output};
use crate::loading::{build_judge, load_drawing};
use crate::order_command::outcome_of;
use crate::out_text::OutText;
use compare_text::compare_text;
use ilk_base::{Memory, Shelf, Text};
use release_compile::GraphJudge;
use station_compare::CompareRefusal;
use station_graph::Station;
use std::alloc::Global;

// What has to be written of the new station, held against the old one: nothing where a walk is too wide.
fn compare_output(alloc: Global, old: &Station, new: &Station) -> Result<Output, Memory>
    ensures { IfOk result (λ o. CompareWrites old.now new.now o.outcome o.text) }
{
    match compare_text(alloc, old, new) {
        Ok(report) => {
            let outcome = outcome_of(!report.extends);
            let text = OutText::named(alloc, report.lines)?;
            Ok(Output { outcome, text })
        }
        Err(CompareRefusal::Wide { bay }) => Ok(Output {
            outcome: Outcome::TooWide { bay },
            text: OutText::whole(Text::new(alloc)),
        }),
        Err(CompareRefusal::Memory) => Err(Memory),
    }
}

// Whether the station has a judge.
fn check_limits(alloc: Global, station: &Station) -> Result<(), End>
    ensures ok { IfOk result (λ _. KeepsLimits station.now) }
    ensures err { IfErr result (BuildFails station.now) }
{
    build_judge(alloc, station)?;
    Ok(())
}

// The same, where the new station keeps the limits.
fn compare_judged(alloc: Global, old: &Station, new: &Station) -> Result<Output, End>
    ensures keeps { IfOk result (λ _. KeepsLimits new.now) }
    ensures ok { IfOk result (λ o. CompareWrites old.now new.now o.outcome o.text) }
    ensures err { IfErr result (λ end. BuildFails new.now end ⊎ (end ≡ WantsMemory)) }
{
    check_limits(alloc, new)?;
    let output = compare_output(alloc, old, new)?;
    Ok(output)
}

// `compare OLD NEW`
#[derive(Clone, Copy)]
pub(crate) struct Compare<'a> {
    pub new: &'a str,
}

impl<'a> Answer for Compare<'a> {
    ghost use Rattle.std.specs.Prelude.{[], ◌∷◌};
    ghost use Rattle.interlock_cli.specs.Rests.{compare_rest};

    ghost rest = { λ command. compare_rest command.new.now };

    ghost names = { λ command. command.new.now ∷ [] };

    #[tactic(auto, using(crate::proofs::Asked::reads_begun, crate::proofs::Drawings::drawn_given, crate::proofs::Drawings::drawn_fails))]
    fn answer<F: Shelf>(
        &self,
        alloc: Global,
        station: &Station,
        _judge: &GraphJudge<'_>,
        shelf: &mut F,
    ) -> Result<Output, End> {
        let new = load_drawing(alloc, self.new, shelf)?;
        compare_judged(alloc, station, &new)
    }
}
