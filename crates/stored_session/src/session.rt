//! A session over the lines of an input.
ghost use Rattle.std.specs.Prelude.{◌≡◌, ◌≤◌, ◌<◌, ◌⊎◌, ◌+◌, ◌*◌, ◌^◌, ℕ, List, Some, length, IfOk};
ghost use Rattle.ilk_base.specs.Outside.{Rose};
ghost use Rattle.central_rules.specs.Meaning.{IsBay};
ghost use Rattle.bay_protocol.specs.State.{State, kept_of};
ghost use Rattle.bay_protocol.specs.Fits.{IsNode, FitsHeard};
ghost use Rattle.node_session.specs.SessionEnds.{Streams};
ghost use Rattle.node_session.specs.declared.end.TheConstants.{MOST_LINES};
ghost use Rattle.node_session.specs.declared.reader.TheConstants.{CHUNK};
ghost use Rattle.node_store.specs.Device.{Told, RisesBy};
ghost use Rattle.node_store.specs.Store.{store_sequence};
ghost use Rattle.stored_session.specs.View.{view};
ghost use Rattle.node_session.specs.SessionEnds.{streams};
ghost use Rattle.stored_session.specs.Kept.{IsKept};
ghost use Rattle.stored_session.specs.Opening.{IsUnfit};
ghost use Rattle.stored_session.specs.Progress.{StoredStands, StoredGoes};
ghost use Rattle.stored_session.specs.Ends.{BegunEnds, StoredEnds, IsStoredInput};

use crate::end::{StoredEnd, end_at};
use crate::held::{Reached, answer_held};
use crate::line::take_line;
use crate::opening::{BayTrouble, open_for_bay};
use crate::read::{NextLine, next_line};
use bay_node::Node;
use central_rules::Judge;
use ilk_base::{BayId, Sink, Source};
use node_session::{InputTrouble, MOST_LINES, Reader};
use node_store::{Device, Store};
use station_graph::Station;
use std::alloc::Global;

// Answers the next lines, as many as lie in the input already, or says how the session ends.
fn answer_next<J: Judge, I: Source, O: Sink, D: Device>(
    alloc: Global,
    station: &Station,
    bay: BayId,
    judge: &J,
    node: &mut Node,
    reached: Reached,
    device: &mut D,
    reader: &mut Reader,
    input: &mut I,
    out: &mut O,
) -> Result<Reached, StoredEnd>
    requires same { (J.meaning judge.now).diagram ≡ station.now }
    requires node { IsNode station.now node.old }
    requires fits { FitsHeard (J.meaning judge.now) node.old }
    requires bay { node.old.bay ≡ bay.0 }
    requires few { reached.count < MOST_LINES }
    requires near { length reader.old ≤ CHUNK }
    requires room { store_sequence reached.store + 1 < 2 ^ 64 }
    requires kept { Told (D.content device.old) (λ image.
        IsKept D.moment D.left_since device.old reached.store image (kept_of node.old)) }
    // Wherever the session stood, it goes on so.
    ensures goes { (start : State) (before : Streams) (from : D)
        → StoredStands (view D.content D.moment D.left_between D.left_since D.read_faults D.write_faults D.calls)
        (J.meaning judge.now) station.now bay.0 start before
        (streams (I.left input.old) (I.left_before input.old) (I.faults input.old) (O.took out.old) (O.faults out.old))
        from device.old reader.old reached.count reached.store node.old
        → StoredGoes (view D.content D.moment D.left_between D.left_since D.read_faults D.write_faults D.calls)
        (J.meaning judge.now) station.now bay.0 start before
        (streams (I.left input.new) (I.left_before input.new) (I.faults input.new) (O.took out.new) (O.faults out.new))
        from device.new reader.new node.new result }
    ensures more { IfOk result (λ r. reached.count < r.count) }
    ensures few { IfOk result (λ r. r.count ≤ MOST_LINES) }
    ensures near { IfOk result (λ _. length reader.new ≤ CHUNK) }
    ensures sequence { IfOk result (λ r. store_sequence r.store ≤ store_sequence reached.store + 1) }
    ensures node { IsNode station.now node.new }
    ensures fits { FitsHeard (J.meaning judge.now) node.new }
    ensures bay { node.new.bay ≡ bay.0 }
{
    match next_line(alloc, reader, input) {
        Ok(NextLine::Whole) => answer_held(
            alloc, station, bay, judge, node, reached, device, reader, out,
        ),
        Ok(NextLine::Last) => {
            let Reached { store, count } = reached;
            let line = reader.held();
            match take_line(alloc, station, bay, judge, node, store, device, out, line) {
                Ok(_) => Err(StoredEnd::Done),
                Err(end) => Err(end_at(count, end)),
            }
        }
        Ok(NextLine::TooLong) => Err(StoredEnd::Refused {
            line: reached.count + 1,
        }),
        Ok(NextLine::End) => Err(StoredEnd::Done),
        Err(InputTrouble::Failed) => Err(StoredEnd::ReadFault),
        Err(InputTrouble::Memory) => Err(StoredEnd::Memory),
    }
}

// Answers the lines of the input.
fn run<J: Judge, I: Source, O: Sink, D: Device>(
    alloc: Global,
    station: &Station,
    bay: BayId,
    judge: &J,
    node: &mut Node,
    store: Store,
    device: &mut D,
    input: &mut I,
    out: &mut O,
) -> StoredEnd
    requires same { (J.meaning judge.now).diagram ≡ station.now }
    requires node { IsNode station.now node.old }
    requires fits { FitsHeard (J.meaning judge.now) node.old }
    requires bay { node.old.bay ≡ bay.0 }
    requires room { store_sequence store + MOST_LINES < 2 ^ 64 }
    requires kept { Told (D.content device.old) (λ image.
        IsKept D.moment D.left_since device.old store image (kept_of node.old)) }
    ensures ends { BegunEnds (view D.content D.moment D.left_between D.left_since D.read_faults D.write_faults D.calls)
        (J.meaning judge.now) station.now bay.0 0 node.old
        (streams (I.left input.old) (I.left_before input.old) (I.faults input.old) (O.took out.old) (O.faults out.old))
        (streams (I.left input.new) (I.left_before input.new) (I.faults input.new) (O.took out.new) (O.faults out.new))
        device.old device.new result }
{
    let mut reached = Reached { store, count: 0 };
    let mut reader = Reader::new(alloc);
    while reached.count < MOST_LINES {
        let next = answer_next(
            alloc,
            station,
            bay,
            judge,
            node,
            reached,
            device,
            &mut reader,
            input,
            out,
        );
        match next {
            Ok(next) => reached = next,
            Err(end) => return end,
        }
    }
    match next_line(alloc, &mut reader, input) {
        Ok(NextLine::End) => StoredEnd::Done,
        Ok(NextLine::Whole) => StoredEnd::Long,
        Ok(NextLine::Last) => StoredEnd::Long,
        Ok(NextLine::TooLong) => StoredEnd::Long,
        Err(InputTrouble::Failed) => StoredEnd::ReadFault,
        Err(InputTrouble::Memory) => StoredEnd::Memory,
    }
}

// The session, from the opening of the store on.
fn serve<J: Judge, I: Source, O: Sink, D: Device>(
    alloc: Global,
    station: &Station,
    bay: BayId,
    judge: &J,
    device: &mut D,
    input: &mut I,
    out: &mut O,
) -> StoredEnd
    requires same { (J.meaning judge.now).diagram ≡ station.now }
    requires bay { IsBay station.now bay.0 }
    ensures { StoredEnds (view D.content D.moment D.left_between D.left_since D.read_faults D.write_faults D.calls)
        (J.meaning judge.now) station.now bay.0
        (streams (I.left input.old) (I.left_before input.old) (I.faults input.old) (O.took out.old) (O.faults out.old))
        (streams (I.left input.new) (I.left_before input.new) (I.faults input.new) (O.took out.new) (O.faults out.new))
        device.old device.new result }
{
    let opened = match open_for_bay(station, bay, device) {
        Ok(opened) => opened,
        Err(BayTrouble::SyncFailed) => return StoredEnd::WriteFault,
        Err(BayTrouble::ReadFailed) => return StoredEnd::ReadFault,
        Err(BayTrouble::Unfit) => return StoredEnd::Unfit,
    };
    let Ok(mut node) = Node::resume(alloc, station, bay, opened.kept) else {
        return StoredEnd::Memory;
    };
    run(
        alloc,
        station,
        bay,
        judge,
        &mut node,
        opened.store,
        device,
        input,
        out,
    )
}

/// Runs the node of the bay over the lines of the input, from the record that the device holds. Each line is one step
/// of the protocol; the record that it leaves, or one of a later line, is put on the device before the line's text is
/// written, and the text is written before more is asked of the input. All whole lines that one read gave, of at most
/// 4,096 bytes beside the first, are stepped before the record after the last of them is put, once, and their texts are
/// written. A `kept` line is refused, and no `keep` line is written. Time and memory: those of `take_line` for each
/// line, and the texts of the lines that one read gave. The device is called at most three times, and six times more for
/// each line.
///
/// `ends` says of each end what its cause is, what `out` took, and for which record an image stands that a crash
/// leaves, in the call or at its return. `complete` says that an input of lines that are not refused, and no more than
/// there may be, is answered to its end where the device's record is fit and no count rose, or memory was wanting.
pub fn serve_stored<J: Judge, I: Source, O: Sink, D: Device>(
    alloc: Global,
    station: &Station,
    bay: BayId,
    judge: &J,
    device: &mut D,
    input: &mut I,
    out: &mut O,
) -> StoredEnd
    requires same { (J.meaning judge.now).diagram ≡ station.now }
    requires bay { IsBay station.now bay.0 }
    ensures ends { StoredEnds (view D.content D.moment D.left_between D.left_since D.read_faults D.write_faults D.calls)
        (J.meaning judge.now) station.now bay.0
        (streams (I.left input.old) (I.left_before input.old) (I.faults input.old) (O.took out.old) (O.faults out.old))
        (streams (I.left input.new) (I.left_before input.new) (I.faults input.new) (O.took out.new) (O.faults out.new))
        device.old device.new result }
    ensures complete { (content image : List ℕ) → I.left input.old ≡ Some content
        → IsStoredInput station.now bay.0 content
        → D.content device.old ≡ Some image → ¬ IsUnfit station.now bay.0 image
        → ¬ Rose (I.faults input.old) (I.faults input.new) → ¬ Rose (O.faults out.old) (O.faults out.new)
        → ¬ Rose (D.read_faults device.old) (D.read_faults device.new)
        → ¬ Rose (D.write_faults device.old) (D.write_faults device.new)
        → (result ≡ StoredEnd.Done) ⊎ (result ≡ StoredEnd.Memory) }
{
    serve(alloc, station, bay, judge, device, input, out)
}
