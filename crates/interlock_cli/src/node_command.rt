//! The command `node`.
ghost use Rattle.std.specs.Prelude.{[], ◌∷◌, ◌≡◌, ℕ, IfOk, IfErr, OnErr};
ghost use Rattle.part_alphabets.specs.Alphabets.{AreAlphabets};
ghost use Rattle.interlock_cli.specs.Formats.{AcceptsAs, BayOf};
ghost use Rattle.interlock_cli.specs.Judging.{JudgeFails};
ghost use Rattle.interlock_cli.specs.Commands.{Node, form_of};
ghost use Rattle.interlock_cli.specs.Files.{files, Reads};
ghost use Rattle.interlock_cli.specs.Form.{FormStops};
ghost use Rattle.interlock_cli.specs.Ends.{Serves, called};
ghost use Rattle.node_session.specs.SessionEnds.{streams};
ghost use Rattle.interlock_cli.specs.Serving.{EndsSession, session_end};

use crate::end::{End, Outcome};
use crate::loading::{build_judge, load_drawing, named_bay};
use ilk_base::{InputRefusal, Shelf, Sink, Source};
use node_session::{SessionEnd, serve};
use release_compile::GraphJudge;
use station_graph::Station;
use std::alloc::Global;

// The end of a call whose session ends so.
fn end_of(end: SessionEnd) -> End
    ensures { result ≡ session_end end }
{
    match end {
        SessionEnd::Done => End::Written(Outcome::Done),
        SessionEnd::Refused { line } => End::Input(InputRefusal { number: 10, line }),
        SessionEnd::Long => End::Long,
        SessionEnd::ReadFault => End::ReadFault,
        SessionEnd::WriteFault => End::WriteFault,
        SessionEnd::Memory => End::Memory,
    }
}

// Serves the input for the bay of this path, over a station and its judge.
fn serve_bay<I: Source, O: Sink>(
    alloc: Global,
    station: &Station,
    judge: &GraphJudge<'_>,
    path: &str,
    input: &mut I,
    out: &mut O,
) -> Result<End, End>
    requires same { judge.now.diagram ≡ station.now }
    requires alphabets { AreAlphabets judge.now.diagram judge.now.alphabets }
    ensures ok { IfOk result (λ end. (b : ℕ) × AcceptsAs (BayOf station.now) path.now b × EndsSession station.now b
        (streams (I.left input.old) (I.left_before input.old) (I.faults input.old) (O.took out.old) (O.faults out.old))
        (streams (I.left input.new) (I.left_before input.new) (I.faults input.new) (O.took out.new) (O.faults out.new))
        end) }
    ensures err { IfErr result (JudgeFails (BayOf station.now) path.now) }
    ensures unasked { OnErr result (input.new ≡ input.old) }
    ensures unwritten { OnErr result (out.new ≡ out.old) }
{
    let bay = named_bay(station, path)?;
    Ok(end_of(serve(alloc, station, bay, judge, input, out)))
}

// Serves the input as `node STATION BAY`; or how the call ends before it asks for any of it.
#[tactic(auto, using(crate::proofs::Asked::reads_first, crate::proofs::Drawings::drawn_fails))]
pub(crate) fn node<F: Shelf, I: Source, O: Sink>(
    alloc: Global,
    station: &str,
    bay: &str,
    shelf: &mut F,
    input: &mut I,
    out: &mut O,
) -> Result<End, End>
    ensures ok { IfOk result (Serves (form_of (Node station.now bay.now))
        (called (F.held shelf.old) (F.faults shelf.old) (F.faults shelf.new)
        (streams (I.left input.old) (I.left_before input.old) (I.faults input.old) (O.took out.old) (O.faults out.old))
        (streams (I.left input.new) (I.left_before input.new) (I.faults input.new) (O.took out.new) (O.faults out.new)))) }
    ensures err { IfErr result (FormStops (form_of (Node station.now bay.now)) (F.held shelf.old) (F.faults shelf.old)
        (F.faults shelf.new)) }
    ensures unasked { OnErr result (input.new ≡ input.old) }
    ensures unwritten { OnErr result (out.new ≡ out.old) }
    ensures reads { Reads (station.now ∷ [])
        (files (F.held shelf.old) (F.faults shelf.old) (F.asked shelf.old))
        (files (F.held shelf.new) (F.faults shelf.new) (F.asked shelf.new)) }
{
    let station = load_drawing(alloc, station, shelf)?;
    let judge = build_judge(alloc, &station)?;
    serve_bay(alloc, &station, &judge, bay, input, out)
}
