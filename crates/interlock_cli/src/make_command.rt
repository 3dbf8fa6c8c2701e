//! The command `make`.
ghost use Rattle.std.specs.Prelude.{◌≡◌, IfOk, IfErr};
ghost use Rattle.station_make.specs.Words.{made_text};

use crate::end::{End, Outcome, Output};
use crate::out_text::OutText;
use station_make::{Feeders, MadeText, make_text};
use std::alloc::Global;

// What `make NUMBER TEXT` has to write. It is given no file.
pub(crate) fn make(alloc: Global, feeders: Feeders, text: MadeText) -> Result<Output, End>
    ensures ok { IfOk result (λ o. (o.outcome ≡ Outcome.Done) × (o.text ≡ made_text text feeders.number)) }
    ensures err { IfErr result (λ end. end ≡ End.Memory) }
{
    let text = make_text(alloc, text, feeders)?;
    Ok(Output {
        outcome: Outcome::Done,
        text: OutText::whole(text),
    })
}
