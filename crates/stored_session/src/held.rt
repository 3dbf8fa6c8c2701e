//! Whole lines that are held, answered together.
ghost use Rattle.std.specs.Prelude.{◌≡◌, ◌≤◌, ◌<◌, ◌+◌, ◌^◌, ℕ, List, Option, length, IfOk};
ghost use Rattle.bay_protocol.specs.State.{State, kept_of};
ghost use Rattle.bay_protocol.specs.Fits.{IsNode, FitsHeard};
ghost use Rattle.node_session.specs.SessionEnds.{Streams, LastAsked, streams};
ghost use Rattle.node_session.specs.declared.end.TheConstants.{MOST_LINES};
ghost use Rattle.node_session.specs.declared.reader.TheConstants.{CHUNK};
ghost use Rattle.node_store.specs.Device.{Told};
ghost use Rattle.node_store.specs.Store.{store_sequence};
ghost use Rattle.stored_session.specs.View.{view};
ghost use Rattle.stored_session.specs.Kept.{IsKept};
ghost use Rattle.stored_session.specs.Holding.{HoldsLine};
ghost use Rattle.stored_session.specs.Through.{ReadsThrough};
ghost use Rattle.stored_session.specs.Progress.{StandsAfter, StoredGoes};

use crate::batch::step_held;
use crate::end::StoredEnd;
use crate::putting::{changed, put_changed};
use bay_node::Node;
use central_rules::Judge;
use ilk_base::{BayId, Sink, write_all};
use node_session::{LineTrouble, MOST_LINES, Reader};
use node_store::{Device, Store};
use station_graph::Station;
use std::alloc::Global;

// How far a session has come.
#[derive(Clone, Copy)]
pub(crate) struct Reached {
    // what is known of the device
    pub store: Store,
    // how many lines are answered
    pub count: u32,
}

// Answers the whole lines that are held: makes their steps, puts the record after the last of them, if it changed, and
// then writes their texts. Says how far the session has come, or how it ends.
pub(crate) fn answer_held<J: Judge, O: Sink, D: Device>(
    alloc: Global,
    station: &Station,
    bay: BayId,
    judge: &J,
    node: &mut Node,
    reached: Reached,
    device: &mut D,
    reader: &mut Reader,
    out: &mut O,
) -> Result<Reached, StoredEnd>
    requires same { (J.meaning judge.now).diagram ≡ station.now }
    requires node { IsNode station.now node.old }
    requires fits { FitsHeard (J.meaning judge.now) node.old }
    requires bay { node.old.bay ≡ bay.0 }
    requires few { reached.count < MOST_LINES }
    requires holds { HoldsLine reader.old }
    requires room { store_sequence reached.store + 1 < 2 ^ 64 }
    requires kept { Told (D.content device.old) (λ image.
        IsKept D.moment D.left_since device.old reached.store image (kept_of node.old)) }
    // Wherever the session stood, it goes on so.
    ensures goes { (start : State) (before : Streams) (from : D) (input asked : Option (List ℕ)) (reads : ℕ)
        → (done : List (List ℕ)) → length done ≡ reached.count → ReadsThrough before.input input reader.old done
        → LastAsked before.input asked (length done)
        → StandsAfter (view D.content D.moment D.left_between D.left_since D.read_faults D.write_faults D.calls)
        (J.meaning judge.now) station.now bay.0 start before
        (streams input asked reads (O.took out.old) (O.faults out.old))
        from device.old done reached.store node.old
        → StoredGoes (view D.content D.moment D.left_between D.left_since D.read_faults D.write_faults D.calls)
        (J.meaning judge.now) station.now bay.0 start before
        (streams input asked reads (O.took out.new) (O.faults out.new))
        from device.new reader.new node.new result }
    ensures more { IfOk result (λ r. reached.count < r.count) }
    ensures few { IfOk result (λ r. r.count ≤ MOST_LINES) }
    ensures near { IfOk result (λ _. length reader.new ≤ CHUNK) }
    ensures sequence { IfOk result (λ r. store_sequence r.store ≤ store_sequence reached.store + 1) }
    ensures node { IsNode station.now node.new }
    ensures fits { FitsHeard (J.meaning judge.now) node.new }
    ensures bay { node.new.bay ≡ bay.0 }
{
    let before = node.kept();
    let most = MOST_LINES - reached.count;
    let batch = step_held(alloc, station, bay, judge, node, reader, most);
    let keep = changed(before, batch.kept);
    let Ok(store) = put_changed(reached.store, device, keep) else {
        return Err(StoredEnd::WriteFault);
    };
    let Ok(()) = write_all(out, batch.text.bytes()) else {
        return Err(StoredEnd::WriteFault);
    };
    let count = reached.count + batch.count;
    match batch.stop {
        None => Ok(Reached { store, count }),
        Some(LineTrouble::Memory) => Err(StoredEnd::Memory),
        Some(LineTrouble::Refused) => Err(StoredEnd::Refused { line: count + 1 }),
    }
}
