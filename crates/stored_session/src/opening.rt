//! Opening the store of a bay.
ghost use Rattle.std.specs.Prelude.{◌≡◌, ◌≤◌, ℕ, List, IfOk, OnOk, IsErrOf, IsTrue, ◌↔◌};
ghost use Rattle.ilk_base.specs.Outside.{Rose};
ghost use Rattle.bay_protocol.specs.Fits.{KeptFits};
ghost use Rattle.node_store.specs.declared.store.TheConstants.{LAST_SEQUENCE};
ghost use Rattle.node_store.specs.Device.{Told, LeavesFrom, KeepsPast, RisesBy};
ghost use Rattle.node_store.specs.Image.{IsImageOf};
ghost use Rattle.node_store.specs.Store.{store_sequence};
ghost use Rattle.stored_session.specs.Kept.{IsKept};
ghost use Rattle.stored_session.specs.Opening.{IsUnfit};

use bay_node::kept_fits;
use ilk_base::BayId;
use node_store::{Device, OpenTrouble, Opened, Store};
use station_graph::Station;

/// Why the store of a bay was not opened.
#[derive(Clone, Copy, PartialEq, Eq)]
pub enum BayTrouble {
    /// The sync failed.
    SyncFailed,
    /// A read failed.
    ReadFailed,
    /// The device holds no record that a node of the bay may keep.
    Unfit,
}

/// Opens the store for a node of the bay. Time and memory: three calls of the device, and the logarithm of the
/// switches; takes no memory.
pub fn open_for_bay<D: Device>(
    station: &Station,
    bay: BayId,
    device: &mut D,
) -> Result<Opened, BayTrouble>
    ensures stands { IfOk result (λ o. Told (D.content device.old) (λ image. IsImageOf image o.kept)) }
    ensures fits { IfOk result (λ o. KeptFits station.now bay.0 o.kept) }
    ensures kept { IfOk result (λ o. Told (D.content device.new) (λ image.
        IsKept D.moment D.left_since device.new o.store image o.kept)) }
    ensures last { IfOk result (λ o. store_sequence o.store ≤ LAST_SEQUENCE) }
    // `Unfit` comes exactly where the record is unfit, unless a call failed.
    ensures unfit { IsErrOf result BayTrouble.Unfit → Told (D.content device.old) (IsUnfit station.now bay.0) }
    ensures fit { OnOk result (Told (D.content device.old) (λ image. ¬ IsUnfit station.now bay.0 image)) }
    ensures sync_failed { IsErrOf result BayTrouble.SyncFailed
        → Rose (D.write_faults device.old) (D.write_faults device.new) }
    ensures read_failed { IsErrOf result BayTrouble.ReadFailed
        → Rose (D.read_faults device.old) (D.read_faults device.new) }
    // It changes nothing.
    ensures same { D.content device.new ≡ D.content device.old }
    ensures crash { LeavesFrom D.left_since (D.moment device.old) device.old device.new (λ c d. c ≡ d) }
    ensures past { KeepsPast D.moment D.left_between device.old device.new }
    ensures counted { RisesBy 3 (D.calls device.old) (D.calls device.new) }
    ensures read_grows { D.read_faults device.old ≤ D.read_faults device.new }
    ensures write_grows { D.write_faults device.old ≤ D.write_faults device.new }
{
    let opened = match Store::open(device) {
        Ok(opened) => opened,
        Err(OpenTrouble::SyncFailed) => return Err(BayTrouble::SyncFailed),
        Err(OpenTrouble::ReadFailed) => return Err(BayTrouble::ReadFailed),
        Err(OpenTrouble::Record { .. }) => return Err(BayTrouble::Unfit),
    };
    if kept_fits(station, bay, &opened.kept) {
        return Ok(opened);
    }
    Err(BayTrouble::Unfit)
}
