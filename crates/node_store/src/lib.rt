//! The kept record of a bay node on a device of 64 bytes, safe against a stop inside any write.
#![tactic(auto)]

mod device;
mod file_device;
mod laws;
mod mem_device;
mod sizes;
mod slots;
mod store;
mod writing;

pub use device::Device;
pub use file_device::{FileDevice, OwnFile};
pub use laws::{image_is_of_one, stop_is_restart};
pub use mem_device::MemDevice;
pub use sizes::{DEVICE_BYTES, RECORD_BYTES, SEQUENCE_BYTES, SLOT_BYTES};
pub use store::{LAST_SEQUENCE, OpenTrouble, Opened, Store};
