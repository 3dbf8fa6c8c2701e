//! The command `stored`.
ghost use Rattle.std.specs.Prelude.{◌≡◌, ◌∷◌, [], ℕ, IfOk, IfErr, OnErr};
ghost use Rattle.part_alphabets.specs.Alphabets.{AreAlphabets};
ghost use Rattle.interlock_cli.specs.Formats.{AcceptsAs, BayOf};
ghost use Rattle.interlock_cli.specs.Files.{files, Reads};
ghost use Rattle.interlock_cli.specs.Form.{FormStops};
ghost use Rattle.interlock_cli.specs.Judging.{JudgeFails};
ghost use Rattle.stored_session.specs.View.{view};
ghost use Rattle.node_session.specs.SessionEnds.{streams};
ghost use Rattle.interlock_cli.specs.Ends.{called};
ghost use Rattle.interlock_cli.specs.Commands.{Node, form_of};
ghost use Rattle.interlock_cli.specs.StoredEnding.{stored_end, EndsStored, EndsStoredSession, Stores};

use crate::end::{End, Outcome};
use crate::loading::{build_judge, load_drawing, named_bay};
use ilk_base::{InputRefusal, Shelf, Sink, Source};
use node_store::Device;
use release_compile::GraphJudge;
use station_graph::Station;
use std::alloc::Global;
use stored_session::{StoredEnd, serve_stored};

// The end of a call whose stored session ends so.
fn end_of(end: StoredEnd) -> End
    ensures { result ≡ stored_end end }
{
    match end {
        StoredEnd::Done => End::Written(Outcome::Done),
        StoredEnd::Unfit => End::Input(InputRefusal {
            number: 12,
            line: 0,
        }),
        StoredEnd::Refused { line } => End::Input(InputRefusal { number: 10, line }),
        StoredEnd::Long => End::Long,
        StoredEnd::ReadFault => End::ReadFault,
        StoredEnd::WriteFault => End::WriteFault,
        StoredEnd::Memory => End::Memory,
    }
}

// Runs the stored session of the bay of this path, over a station and its judge.
fn serve_bay<I: Source, O: Sink, D: Device>(
    alloc: Global,
    station: &Station,
    judge: &GraphJudge<'_>,
    path: &str,
    input: &mut I,
    out: &mut O,
    device: &mut D,
) -> Result<End, End>
    requires same { judge.now.diagram ≡ station.now }
    requires alphabets { AreAlphabets judge.now.diagram judge.now.alphabets }
    ensures ok { IfOk result (λ end. (b : ℕ) × AcceptsAs (BayOf station.now) path.now b × EndsStoredSession
        (view D.content D.moment D.left_between D.left_since D.read_faults D.write_faults D.calls) station.now b
        (streams (I.left input.old) (I.left_before input.old) (I.faults input.old) (O.took out.old) (O.faults out.old))
        (streams (I.left input.new) (I.left_before input.new) (I.faults input.new) (O.took out.new) (O.faults out.new))
        device.old device.new end) }
    ensures err { IfErr result (JudgeFails (BayOf station.now) path.now) }
    ensures unasked { OnErr result (input.new ≡ input.old) }
    ensures unwritten { OnErr result (out.new ≡ out.old) }
    ensures untouched { OnErr result (device.new ≡ device.old) }
{
    let bay = named_bay(station, path)?;
    Ok(end_of(serve_stored(alloc, station, bay, judge, device, input, out)))
}

// Runs the stored session of the bay over the device, once the station and the bay are accepted; or how the call ends
// before it asks for any of the input or the device.
#[tactic(auto, using(crate::proofs::Asked::reads_first))]
fn serve_named<F: Shelf, I: Source, O: Sink, D: Device>(
    alloc: Global,
    station: &str,
    bay: &str,
    shelf: &mut F,
    input: &mut I,
    out: &mut O,
    device: &mut D,
) -> Result<End, End>
    ensures ok { IfOk result (Stores
        (view D.content D.moment D.left_between D.left_since D.read_faults D.write_faults D.calls)
        record { station = station.now; bay = bay.now }
        (called (F.held shelf.old) (F.faults shelf.old) (F.faults shelf.new)
        (streams (I.left input.old) (I.left_before input.old) (I.faults input.old) (O.took out.old) (O.faults out.old))
        (streams (I.left input.new) (I.left_before input.new) (I.faults input.new) (O.took out.new) (O.faults out.new)))
        device.old device.new) }
    ensures err { IfErr result (FormStops (form_of (Node station.now bay.now)) (F.held shelf.old) (F.faults shelf.old)
        (F.faults shelf.new)) }
    ensures unasked { OnErr result (input.new ≡ input.old) }
    ensures unwritten { OnErr result (out.new ≡ out.old) }
    ensures untouched { OnErr result (device.new ≡ device.old) }
    ensures reads { Reads (station.now ∷ [])
        (files (F.held shelf.old) (F.faults shelf.old) (F.asked shelf.old))
        (files (F.held shelf.new) (F.faults shelf.new) (F.asked shelf.new)) }
{
    let station = load_drawing(alloc, station, shelf)?;
    let judge = build_judge(alloc, &station)?;
    serve_bay(alloc, &station, &judge, bay, input, out, device)
}

// Runs the stored session of the bay over the device, and tells how the call ends.
pub(crate) fn stored<F: Shelf, I: Source, O: Sink, D: Device>(
    alloc: Global,
    station: &str,
    bay: &str,
    shelf: &mut F,
    input: &mut I,
    out: &mut O,
    device: &mut D,
) -> End
    ensures ends { EndsStored
        (view D.content D.moment D.left_between D.left_since D.read_faults D.write_faults D.calls)
        record { station = station.now; bay = bay.now }
        (called (F.held shelf.old) (F.faults shelf.old) (F.faults shelf.new)
        (streams (I.left input.old) (I.left_before input.old) (I.faults input.old) (O.took out.old) (O.faults out.old))
        (streams (I.left input.new) (I.left_before input.new) (I.faults input.new) (O.took out.new) (O.faults out.new)))
        device.old device.new result }
    ensures reads { Reads (station.now ∷ [])
        (files (F.held shelf.old) (F.faults shelf.old) (F.asked shelf.old))
        (files (F.held shelf.new) (F.faults shelf.new) (F.asked shelf.new)) }
{
    match serve_named(alloc, station, bay, shelf, input, out, device) {
        Ok(end) => end,
        Err(end) => end,
    }
}
