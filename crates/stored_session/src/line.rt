//! One line of a stored session.
ghost use Rattle.std.specs.Prelude.{◌≡◌, ◌≢◌, ◌≤◌, ◌<◌, ◌⊎◌, ◌+◌, ◌^◌, false, IfOk, IfErr, OnErr, IsErrOf};
ghost use Rattle.std.specs.List.{All};
ghost use Rattle.ilk_base.specs.Outside.{Rose};
ghost use Rattle.bay_frames.specs.Row.{IsLawful};
ghost use Rattle.bay_protocol.specs.State.{kept_of};
ghost use Rattle.bay_protocol.specs.Fits.{IsNode, FitsHeard};
ghost use Rattle.bay_protocol.specs.Output.{turn, IsKeep};
ghost use Rattle.bay_protocol.specs.OutcomeLines.{OutcomeFits};
ghost use Rattle.bay_protocol.specs.declared.values.Kept.{Kept as AnyRecord};
ghost use Rattle.node_session.specs.Requests.{IsRequest};
ghost use Rattle.node_store.specs.Device.{Told, Becomes, RisesBy, IsSettled, LeavesOnly};
ghost use Rattle.node_store.specs.Image.{IsImageOf};
ghost use Rattle.node_store.specs.Store.{MatchesStore, store_sequence};
ghost use Rattle.stored_session.specs.Kept.{IsKept, LeavesNow};
ghost use Rattle.stored_session.specs.Stored.{AsksTurn, WritesLine, StoredLineFails};

use crate::putting::put_changed;
use bay_node::{Kept, Node, NodeOutput};
use central_rules::Judge;
use ilk_base::{BayId, Failed, Sink, write_all};
use node_session::{LineTrouble, Request, read_request, shown_text};
use node_store::{Device, Store};
use station_graph::Station;
use std::alloc::Global;

/// Why a line is not answered to its end.
#[derive(Clone, Copy, PartialEq, Eq)]
pub enum LineEnd {
    /// There was not enough memory.
    Memory,
    /// It is no line of the input, or hands back a record.
    Refused,
    /// A write or a sync of the device failed.
    StoreFailed,
    /// The output failed.
    OutFailed,
}

// Does what the line asks.
pub(crate) fn act<J: Judge>(
    alloc: Global,
    station: &Station,
    bay: BayId,
    judge: &J,
    node: &mut Node,
    line: &[u8],
) -> Result<NodeOutput, LineTrouble>
    requires same { (J.meaning judge.now).diagram ≡ station.now }
    requires node { IsNode station.now node.old }
    requires fits { FitsHeard (J.meaning judge.now) node.old }
    requires bay { node.old.bay ≡ bay.0 }
    ensures turn { IfOk result (λ output. AsksTurn (J.meaning judge.now) station.now bay.0 node.old line.now
        (turn node.new output)) }
    ensures keep { IfOk result (λ output. IsKeep (kept_of node.old) (kept_of node.new) output.keep) }
    ensures lawful { IfOk result (λ output. All IsLawful output.frames) }
    ensures outcome { IfOk result (λ output. OutcomeFits station.now output.outcome) }
    ensures refused { IsErrOf result LineTrouble.Refused → ¬ IsRequest station.now bay.0 false line.now }
    ensures err { OnErr result (node.new ≡ node.old) }
    ensures node { IsNode station.now node.new }
    ensures fits { FitsHeard (J.meaning judge.now) node.new }
    ensures bay { node.new.bay ≡ bay.0 }
{
    match read_request(alloc, station, bay, false, line) {
        Ok(Request::Event(event)) => match node.step(alloc, station, event, judge) {
            Ok(output) => Ok(output),
            Err(_) => Err(LineTrouble::Memory),
        },
        Ok(Request::Arrival(bytes)) => match node.take(alloc, station, bytes.bytes(), judge) {
            Ok(output) => Ok(output),
            Err(_) => Err(LineTrouble::Memory),
        },
        // Its clause says that this is asked by a first line alone.
        Ok(Request::Resume(_)) => Err(LineTrouble::Refused),
        Err(trouble) => Err(trouble),
    }
}

/// Answers one input line: makes the step of the node, puts a changed record, and then writes what the step shows
/// and sends. A `kept` line is refused, since the record stands on the device. After an error the session is at its
/// end. Time and memory: those of `Node::step` and the text, and at most six calls of the device.
pub fn take_line<J: Judge, D: Device, O: Sink>(
    alloc: Global,
    station: &Station,
    bay: BayId,
    judge: &J,
    node: &mut Node,
    store: Store,
    device: &mut D,
    out: &mut O,
    line: &[u8],
) -> Result<Store, LineEnd>
    requires same { (J.meaning judge.now).diagram ≡ station.now }
    requires node { IsNode station.now node.old }
    requires fits { FitsHeard (J.meaning judge.now) node.old }
    requires bay { node.old.bay ≡ bay.0 }
    requires room { store_sequence store + 1 < 2 ^ 64 }
    requires kept { Told (D.content device.old) (λ image.
        IsKept D.moment D.left_since device.old store image (kept_of node.old)) }
    // A crash at any moment of the call leaves the record from before this line or from after it.
    ensures crash { Told (D.content device.old) (λ _.
        LeavesOnly D.moment D.left_between D.left_since device.old device.new
        (λ c. IsImageOf c (kept_of node.old) ⊎ IsImageOf c (kept_of node.new))) }
    // Where `out` took a byte of the line's text, a crash at the return leaves the record from after the line.
    ensures taken { Told (D.content device.old) (λ _. O.took out.new ≢ O.took out.old
        → LeavesNow D.moment D.left_since device.new (kept_of node.new)) }
    ensures stored { IsErrOf result LineEnd.OutFailed → Told (D.content device.old) (λ _.
        LeavesNow D.moment D.left_since device.new (kept_of node.new)) }
    // So it does at `Ok`.
    ensures kept { IfOk result (λ s. Becomes (D.content device.old) (D.content device.new) (λ _ after.
        IsKept D.moment D.left_since device.new s after (kept_of node.new))) }
    ensures answers { IfOk result (λ _. WritesLine (J.meaning judge.now) station.now bay.0 node.old line.now node.new
        (O.took out.old) (O.took out.new)) }
    ensures fails { IfErr result (StoredLineFails (J.meaning judge.now) station.now bay.0 node.old line.now node.new
        (O.took out.old) (O.took out.new)
        (Rose (D.write_faults device.old) (D.write_faults device.new)) (Rose (O.faults out.old) (O.faults out.new))) }
    // Where the record is unchanged, or no step was made, the device is as it was.
    ensures unchanged { kept_of node.new ≡ kept_of node.old → device.new ≡ device.old }
    ensures quiet { (IsErrOf result LineEnd.Memory ⊎ IsErrOf result LineEnd.Refused) → device.new ≡ device.old }
    ensures sequence { IfOk result (λ s. store_sequence s ≤ store_sequence store + 1) }
    ensures counted { RisesBy 6 (D.calls device.old) (D.calls device.new) }
    ensures store_reads { D.read_faults device.new ≡ D.read_faults device.old }
    ensures store_grows { D.write_faults device.old ≤ D.write_faults device.new }
    ensures out_grows { O.faults out.old ≤ O.faults out.new }
    ensures node { IsNode station.now node.new }
    ensures fits { FitsHeard (J.meaning judge.now) node.new }
    ensures bay { node.new.bay ≡ bay.0 }
{
    let output = match act(alloc, station, bay, judge, node, line) {
        Ok(output) => output,
        Err(LineTrouble::Memory) => return Err(LineEnd::Memory),
        Err(LineTrouble::Refused) => return Err(LineEnd::Refused),
    };
    let Ok(text) = shown_text(alloc, station, &output) else {
        return Err(LineEnd::Memory);
    };
    let Ok(next) = put_changed(store, device, output.keep) else {
        return Err(LineEnd::StoreFailed);
    };
    let Ok(()) = write_all(out, text.bytes()) else {
        return Err(LineEnd::OutFailed);
    };
    Ok(next)
}
