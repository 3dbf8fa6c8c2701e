//! What follows of images.
ghost use Rattle.std.specs.Prelude.{◌≡◌, ℕ, List};
ghost use Rattle.station_graph.specs.Diagram.{Diagram};
ghost use Rattle.bay_protocol.specs.declared.values.Kept.{Kept as AnyRecord};
ghost use Rattle.bay_protocol.specs.State.{State, kept_of, resumed, restarts};
ghost use Rattle.bay_protocol.specs.Fits.{IsNode};
ghost use Rattle.node_store.specs.Image.{IsImageOf};

use bay_protocol::restart_is_resume;

/// An image stands for one record at most. Like the other laws it does nothing and costs nothing: a caller
/// cites its contract.
pub fn image_is_of_one()
    ensures { (image : List ℕ) (a b : AnyRecord) → IsImageOf image a → IsImageOf image b → a ≡ b }
{}

/// A stop is a restart: where an image stands for the record of a node, the node that is made of the record
/// that is read from the image is the node that a restart leaves.
pub fn stop_is_restart()
    ensures { (d : Diagram) (s : State) (image : List ℕ) (read : AnyRecord)
        → IsNode d s → IsImageOf image (kept_of s) → IsImageOf image read → resumed d s.bay read ≡ restarts s }
{
    restart_is_resume();
}
