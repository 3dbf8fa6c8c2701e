//! The command `station`.
ghost use Rattle.std.specs.Prelude.{◌≡◌, ◌<◌, [], ◌∷◌, IfOk, IfErr, List, ℕ, Err};
ghost use Rattle.ssd_read.specs.StandsFor.{TellsStation};
ghost use Rattle.ssd_read.specs.Elements.{Element as AnElement};
ghost use Rattle.ssd_read.specs.Whole.{IsDrawing};
ghost use Rattle.drawing_remarks.specs.StationText.{IsStationReport};
ghost use Rattle.interlock_cli.specs.Commands.{Station, form_of};
ghost use Rattle.interlock_cli.specs.Formats.{Elements, AcceptsAs};
ghost use Rattle.interlock_cli.specs.Files.{files, Reads};
ghost use Rattle.interlock_cli.specs.Form.{Gives, FormStops};
ghost use Rattle.interlock_cli.specs.Judging.{JudgeFails};

use crate::end::{End, Output};
use crate::loading::read_file;
use crate::order_command::outcome_of;
use crate::out_text::OutText;
use drawing_remarks::{StationReport, station_text};
use ilk_base::Shelf;
use ssd_read::{SsdRefusal, WholeDrawing, read_whole};
use std::alloc::Global;

// How a call ends whose drawing is refused, or for which there is not enough memory.
#[tactic(auto, using(crate::proofs::Drawings::refused))]
fn end_of(refusal: SsdRefusal) -> End
    ensures { (bytes : List ℕ) → TellsStation bytes (Err refusal) → JudgeFails Elements bytes result }
{
    match refusal.number() {
        Some(_) => End::Station(refusal),
        None => End::Memory,
    }
}

// The drawing of these bytes, whole.
fn read_elements<'a>(alloc: Global, bytes: &'a [u8]) -> Result<WholeDrawing<'a>, End>
    ensures ok { IfOk result (IsDrawing bytes.now) }
    ensures err { IfErr result (JudgeFails Elements bytes.now) }
{
    match read_whole(alloc, bytes) {
        Ok(whole) => Ok(whole),
        Err(refusal) => Err(end_of(refusal)),
    }
}

// What is told of the bytes of a drawing.
fn judge_elements(alloc: Global, bytes: &[u8]) -> Result<StationReport, End>
    ensures ok { IfOk result (λ report. (all : List AnElement) × AcceptsAs Elements bytes.now all
        × IsStationReport all report) }
    ensures err { IfErr result (JudgeFails Elements bytes.now) }
{
    let whole = read_elements(alloc, bytes)?;
    Ok(station_text(alloc, &whole)?)
}

// What `station STATION` has to write.
pub(crate) fn station<F: Shelf>(alloc: Global, name: &str, shelf: &mut F) -> Result<Output, End>
    ensures ok { IfOk result (Gives (form_of (Station name.now)) (F.held shelf.old)) }
    ensures err { IfErr result (FormStops (form_of (Station name.now)) (F.held shelf.old) (F.faults shelf.old)
        (F.faults shelf.new)) }
    ensures reads { Reads (name.now ∷ [])
        (files (F.held shelf.old) (F.faults shelf.old) (F.asked shelf.old))
        (files (F.held shelf.new) (F.faults shelf.new) (F.asked shelf.new)) }
{
    let bytes = read_file(name, shelf)?;
    let report = judge_elements(alloc, &bytes)?;
    Ok(Output {
        outcome: outcome_of(report.remarks > 0),
        text: OutText::whole(report.text),
    })
}
