//! Putting a record that has changed.
ghost use Rattle.std.specs.Prelude.{◌≡◌, ◌≢◌, ◌≤◌, ◌<◌, ◌⊎◌, ◌+◌, ◌^◌, ℕ, List, None, IfOk};
ghost use Rattle.std.specs.Prelude.{IfNone, OnErr};
ghost use Rattle.ilk_base.specs.Outside.{Rose};
ghost use Rattle.bay_protocol.specs.Output.{IsKeep};
ghost use Rattle.bay_protocol.specs.declared.values.Kept.{Kept as AnyRecord};
ghost use Rattle.node_store.specs.Device.{Told, Becomes, RisesBy, IsSettled, LeavesOnly};
ghost use Rattle.node_store.specs.Image.{IsImageOf};
ghost use Rattle.node_store.specs.Store.{MatchesStore, store_sequence};
ghost use Rattle.stored_session.specs.Kept.{IsKept};

use bay_node::Kept;
use ilk_base::Failed;
use node_store::{Device, Store};

// The new record, if it is another.
pub(crate) fn changed(before: Kept, after: Kept) -> Option<Kept>
    ensures { IsKeep before after result }
{
    if before == after {
        return None;
    }
    Some(after)
}

// Puts the record, if there is a new one.
pub(crate) fn put_changed<D: Device>(
    store: Store,
    device: &mut D,
    keep: Option<Kept>,
) -> Result<Store, Failed>
    requires room { store_sequence store + 1 < 2 ^ 64 }
    requires matches { Told (D.content device.old) (λ image.
        MatchesStore image store × IsSettled D.moment D.left_since device.old image) }
    // A crash leaves the record from before the step or from after it.
    ensures crash { Told (D.content device.old) (λ image. (old new : AnyRecord) → IsImageOf image old
        → IsKeep old new keep → LeavesOnly D.moment D.left_between D.left_since device.old device.new (λ c.
        IsImageOf c old ⊎ IsImageOf c new)) }
    ensures kept { IfOk result (λ s. Becomes (D.content device.old) (D.content device.new) (λ image after.
        (old new : AnyRecord) → IsImageOf image old → IsKeep old new keep
        → IsKept D.moment D.left_since device.new s after new)) }
    ensures unchanged { IfNone keep (device.new ≡ device.old) }
    ensures sequence { IfOk result (λ s. store_sequence s ≤ store_sequence store + 1) }
    ensures counted { RisesBy 6 (D.calls device.old) (D.calls device.new) }
    ensures reads { D.read_faults device.new ≡ D.read_faults device.old }
    ensures grows { D.write_faults device.old ≤ D.write_faults device.new }
    ensures failed { OnErr result (Rose (D.write_faults device.old) (D.write_faults device.new)) }
    ensures some { OnErr result (keep ≢ None) }
{
    match keep {
        Some(kept) => store.put(device, &kept),
        None => Ok(store),
    }
}
