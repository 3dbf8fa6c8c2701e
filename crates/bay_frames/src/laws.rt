//! What follows for every frame.
ghost use Rattle.std.specs.Prelude.{◌≡◌, ◌≢◌, ◌<◌, ℕ, List, length, take, slice_index, None};
ghost use Rattle.bay_frames.specs.declared.frame.Frame.{Frame as AnyFrame};
ghost use Rattle.bay_frames.specs.Row.{frame_row, IsLawful, FitsRow};
ghost use Rattle.bay_frames.specs.Tests.{first_failure};

/// No proper front of a row is a row, so that a frame that was cut is never taken for another. Like
/// the other laws it does nothing and costs nothing: a caller cites its contract.
pub fn no_front_is_a_row()
    ensures { (f g : AnyFrame) (n : ℕ) → FitsRow f → FitsRow g → n < length (frame_row f)
        → take n (frame_row f) ≢ frame_row g }
{}

/// A row is that of one frame only.
pub fn one_frame_for_a_row()
    ensures { (f g : AnyFrame) → FitsRow f → FitsRow g → frame_row f ≡ frame_row g → f ≡ g }
{}

/// Bytes pass each test exactly where they are the row of a lawful frame.
pub fn passing_bytes_are_rows()
    ensures passes { (f : AnyFrame) → FitsRow f → IsLawful f → first_failure (frame_row f) ≡ None }
    ensures rows { (bytes : List ℕ) → ((i : ℕ) → slice_index bytes i < 256)
        → first_failure bytes ≡ None → (f : AnyFrame) × FitsRow f × IsLawful f × (bytes ≡ frame_row f) }
{}
