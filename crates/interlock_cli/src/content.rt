//! What a command is given in a file beside its drawing.
ghost use Rattle.std.specs.Prelude.{◌≡◌, ◌∷◌, [], OnOk, IfOk, IfErr};
ghost use Rattle.station_graph.specs.Diagram.{Diagram};
ghost use Rattle.interlock_cli.specs.Formats.{Format, Value, AcceptsAs, IsOfFile};
ghost use Rattle.interlock_cli.specs.Files.{files, ReadsAll, Reads};
ghost use Rattle.interlock_cli.specs.Form.{Given, Fails, File};
ghost use Rattle.interlock_cli.specs.Judging.{JudgeFails, Onward};

use crate::end::End;
use crate::loading::read_file;
use ilk_base::Shelf;
use station_graph::Station;
use std::alloc::Global;

// What a content of a file is accepted as, by the station.
pub(crate) trait Content: Sized {
    // What the content has to be.
    ghost format: { Diagram → Format };

    // The value as the definitions see it.
    ghost accepted: { (d : Diagram) → Self → Value (format d) };

    // What else holds of it, which those ask for to whom it is handed.
    ghost Fits: { Diagram → Self → Type 0 };

    // The value of the bytes, or how the call ends.
    fn judge(alloc: Global, station: &Station, bytes: &[u8]) -> Result<Self, End>
        ensures ok { IfOk result (λ v. AcceptsAs (format station.now) bytes.now (accepted station.now v)) }
        ensures fits { IfOk result (Fits station.now) }
        ensures err { IfErr result (JudgeFails (format station.now) bytes.now) };

    ghost of_file: { (d : Diagram) → IsOfFile (format d) };
}

// The value of a file.
pub(crate) fn load<T: Content, F: Shelf>(
    alloc: Global,
    station: &Station,
    name: &str,
    shelf: &mut F,
) -> Result<T, End>
    ensures ok { IfOk result (λ v. Given (F.held shelf.old) (File name.now) (T.format station.now)
        (T.accepted station.now v)) }
    ensures fits { IfOk result (T.Fits station.now) }
    ensures err { IfErr result (Fails (F.held shelf.old) (F.faults shelf.old) (F.faults shelf.new) (File name.now)
        (T.format station.now)) }
    ensures onward { Onward (F.held shelf.old) (F.held shelf.new) (F.faults shelf.old) (F.faults shelf.new) }
    ensures read { OnOk result (ReadsAll (name.now ∷ [])
        (files (F.held shelf.old) (F.faults shelf.old) (F.asked shelf.old))
        (files (F.held shelf.new) (F.faults shelf.new) (F.asked shelf.new))) }
    ensures reads { Reads (name.now ∷ [])
        (files (F.held shelf.old) (F.faults shelf.old) (F.asked shelf.old))
        (files (F.held shelf.new) (F.faults shelf.new) (F.asked shelf.new)) }
{
    let bytes = read_file(name, shelf)?;
    T::judge(alloc, station, &bytes)
}
