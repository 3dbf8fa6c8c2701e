//! The drawing of a command, its station and its judge; and what a word names of the station.
ghost use Rattle.std.specs.Prelude.{◌≡◌, ◌∷◌, [], ◌+◌, ◌<◌, length, take, slice_get, Some, Ok};
ghost use Rattle.std.specs.Prelude.{OnOk, IfOk, IfErr, IfSome};
ghost use Rattle.ilk_base.specs.Outside.{Rose};
ghost use Rattle.ilk_base.specs.declared.limits.TheConstants.{FILE_BYTES};
ghost use Rattle.ssd_read.specs.StandsFor.{Stands};
ghost use Rattle.part_alphabets.specs.Alphabets.{AreAlphabets};
ghost use Rattle.release_compile.specs.Judging.{KeepsLimits};
ghost use Rattle.central_rules.specs.Meaning.{IsBay};
ghost use Rattle.interlock_cli.specs.Formats.{AcceptsAs, Drawing, SwitchOf, BayOf};
ghost use Rattle.interlock_cli.specs.Files.{files, ReadsAll, Reads};
ghost use Rattle.interlock_cli.specs.Form.{Fails, File};
ghost use Rattle.interlock_cli.specs.Judging.{Drawn, BuildFails, ReadFails, JudgeFails, Onward};

use crate::end::End;
use ilk_base::{BayId, FILE_BYTES, InputRefusal, ReadTrouble, Shelf, SwitchId};
use release_compile::{BuildRefusal, GraphJudge};
use ssd_read::{SsdRefusal, read_ssd};
use station_graph::Station;
use std::alloc::Global;

// One byte more than a file may have, so that a file that is too long is seen to be.
const MOST: u32 = FILE_BYTES as u32 + 1;

// As many bytes of a file as tell what it is.
pub(crate) fn read_file<F: Shelf>(name: &str, shelf: &mut F) -> Result<Vec<u8>, End>
    ensures ok { IfOk result (λ v. IfSome (F.held shelf.old name.now) (λ b. v.items ≡ take (FILE_BYTES + 1) b)) }
    ensures err { IfErr result (ReadFails (Rose (F.faults shelf.old name.now) (F.faults shelf.new name.now))) }
    ensures onward { Onward (F.held shelf.old) (F.held shelf.new) (F.faults shelf.old) (F.faults shelf.new) }
    ensures read { OnOk result (ReadsAll (name.now ∷ [])
        (files (F.held shelf.old) (F.faults shelf.old) (F.asked shelf.old))
        (files (F.held shelf.new) (F.faults shelf.new) (F.asked shelf.new))) }
    ensures reads { Reads (name.now ∷ [])
        (files (F.held shelf.old) (F.faults shelf.old) (F.asked shelf.old))
        (files (F.held shelf.new) (F.faults shelf.new) (F.asked shelf.new)) }
{
    match shelf.read(name, MOST) {
        Ok(bytes) => Ok(bytes),
        Err(ReadTrouble::Memory) => Err(End::Memory),
        Err(ReadTrouble::Failed) => Err(End::ReadFault),
    }
}

// The station of a drawing's bytes.
pub(crate) fn judge_drawing(alloc: Global, bytes: &[u8]) -> Result<Station, End>
    ensures ok { IfOk result (λ d. Stands bytes.now (Ok d)) }
    ensures err { IfErr result (JudgeFails Drawing bytes.now) }
{
    match read_ssd(alloc, bytes) {
        Ok(station) => Ok(station),
        Err(SsdRefusal::Memory) => Err(End::Memory),
        Err(refusal) => Err(End::Station(refusal)),
    }
}

// The judge of a station.
pub(crate) fn build_judge(alloc: Global, station: &Station) -> Result<GraphJudge<'_>, End>
    ensures ok { IfOk result (λ _. KeepsLimits station.now) }
    ensures station { IfOk result (λ j. j.diagram ≡ station.now) }
    ensures alphabets { IfOk result (λ j. AreAlphabets j.diagram j.alphabets) }
    ensures err { IfErr result (BuildFails station.now) }
{
    // Its clause says that it is a station; it does nothing.
    station.is_station();
    match GraphJudge::build(alloc, station) {
        Ok(judge) => {
            // Its clause says that they are those of the station.
            let _parts = judge.parts();
            Ok(judge)
        }
        Err(BuildRefusal::Memory) => Err(End::Memory),
        Err(BuildRefusal::Many { part, step }) => Err(End::Many { part, step }),
        Err(BuildRefusal::Wide { bay }) => Err(End::Wide { bay }),
    }
}

// The station of a file, of which it is not known yet whether it has a judge.
pub(crate) fn load_drawing<F: Shelf>(
    alloc: Global,
    name: &str,
    shelf: &mut F,
) -> Result<Station, End>
    ensures ok { IfOk result (Drawn (F.held shelf.old) (File name.now)) }
    ensures err { IfErr result (Fails (F.held shelf.old) (F.faults shelf.old) (F.faults shelf.new)
        (File name.now) Drawing) }
    ensures onward { Onward (F.held shelf.old) (F.held shelf.new) (F.faults shelf.old) (F.faults shelf.new) }
    ensures read { OnOk result (ReadsAll (name.now ∷ [])
        (files (F.held shelf.old) (F.faults shelf.old) (F.asked shelf.old))
        (files (F.held shelf.new) (F.faults shelf.new) (F.asked shelf.new))) }
    ensures reads { Reads (name.now ∷ [])
        (files (F.held shelf.old) (F.faults shelf.old) (F.asked shelf.old))
        (files (F.held shelf.new) (F.faults shelf.new) (F.asked shelf.new)) }
{
    let bytes = read_file(name, shelf)?;
    judge_drawing(alloc, &bytes)
}

// The switch of a path that the words name.
pub(crate) fn named_switch(station: &Station, path: &str) -> Result<SwitchId, End>
    ensures ok { IfOk result (λ id. slice_get station.now.switch_paths id.0 ≡ Some path.now) }
    ensures within { IfOk result (λ id. id.0 < length station.now.switches) }
    ensures accepts { IfOk result (λ id. AcceptsAs (SwitchOf station.now) path.now path.now) }
    ensures err { IfErr result (JudgeFails (SwitchOf station.now) path.now) }
{
    match station.find_switch(path) {
        Some(id) => Ok(id),
        None => Err(End::Input(InputRefusal {
            number: 11,
            line: 0,
        })),
    }
}

// The bay of a path that the words name.
pub(crate) fn named_bay(station: &Station, path: &str) -> Result<BayId, End>
    ensures accepts { IfOk result (λ b. AcceptsAs (BayOf station.now) path.now b.0) }
    ensures bay { IfOk result (λ b. IsBay station.now b.0) }
    ensures err { IfErr result (JudgeFails (BayOf station.now) path.now) }
{
    match station.find_bay(path) {
        Some(bay) => Ok(bay),
        None => Err(End::Input(InputRefusal {
            number: 11,
            line: 0,
        })),
    }
}
