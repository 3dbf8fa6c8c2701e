//! A device as the store sees it: what a read gives, and what a crash may leave.
ghost use Rattle.std.specs.Prelude.{◌≡◌, ◌≤◌, ◌⊎◌, ◌↔◌, ◌+◌, List, ℕ, Option, Some, length, take, drop, OnOk, OnErr};
ghost use Rattle.ilk_base.specs.Outside.{Rose};
ghost use Rattle.node_store.specs.declared.sizes.TheConstants.{DEVICE_BYTES};
ghost use Rattle.node_store.specs.Device.{Told, Becomes, IsChangedWithin, IsWritten, LeavesFrom, KeepsPast, RisesBy};

use ilk_base::Failed;

/// A device of `DEVICE_BYTES` bytes.
///
/// It has two counts of faults and a count of calls, which never fall, and a clock.
pub trait Device {
    /// The bytes that a read gives, where they are told.
    ghost content: { Self → Option (List ℕ) };

    /// The moment, as a number that doesn't fall.
    ghost moment: { Self → ℕ };

    /// What a crash at some moment from that one on may have left, in a call or between two.
    ghost left_since: { Self → ℕ → List ℕ → Type 0 };

    /// What a crash at some moment from the first on and before the second may have left.
    ghost left_between: { Self → ℕ → ℕ → List ℕ → Type 0 };

    /// How often a read has failed.
    ghost read_faults: { Self → ℕ };

    /// How often a write or a sync has failed.
    ghost write_faults: { Self → ℕ };

    /// How many calls there were.
    ghost calls: { Self → ℕ };

    /// Reads the bytes from a place on.
    fn read(&mut self, at: u8, into: &mut [u8]) -> Result<(), Failed>
        requires { at + length into.old ≤ DEVICE_BYTES }
        ensures bytes { OnOk result (Told (content self.old)
            (λ image. into.new ≡ take (length into.old) (drop at image))) }
        ensures same { content self.new ≡ content self.old }
        ensures crash { LeavesFrom left_since (moment self.old) self.old self.new (λ c d. c ≡ d) }
        ensures past { KeepsPast moment left_between self.old self.new }
        ensures counted { RisesBy 1 (calls self.old) (calls self.new) }
        ensures grows { read_faults self.old ≤ read_faults self.new }
        ensures others { write_faults self.new ≡ write_faults self.old }
        ensures failed { OnErr result (Rose (read_faults self.old) (read_faults self.new)) };

    /// Writes over the bytes from a place on. Until a sync succeeds, a crash may leave any bytes in
    /// the range, also where the write failed.
    fn write(&mut self, at: u8, piece: &[u8]) -> Result<(), Failed>
        requires { at + length piece.now ≤ DEVICE_BYTES }
        ensures written { OnOk result (Becomes (content self.old) (content self.new) (IsWritten at piece.now)) }
        ensures changed { Becomes (content self.old) (content self.new) (IsChangedWithin at (length piece.now)) }
        ensures crash { LeavesFrom left_since (moment self.old) self.old self.new
            (IsChangedWithin at (length piece.now)) }
        ensures past { KeepsPast moment left_between self.old self.new }
        ensures counted { RisesBy 1 (calls self.old) (calls self.new) }
        ensures others { read_faults self.new ≡ read_faults self.old }
        ensures grows { write_faults self.old ≤ write_faults self.new }
        ensures failed { OnErr result (Rose (write_faults self.old) (write_faults self.new)) };

    /// After it, a crash leaves the content.
    fn sync(&mut self) -> Result<(), Failed>
        ensures settled { OnOk result (Told (content self.new)
            (λ image. (c : List ℕ) → left_since self.new (moment self.new) c → c ≡ image)) }
        ensures same { content self.new ≡ content self.old }
        ensures crash { LeavesFrom left_since (moment self.old) self.old self.new (λ c d. c ≡ d) }
        ensures past { KeepsPast moment left_between self.old self.new }
        ensures counted { RisesBy 1 (calls self.old) (calls self.new) }
        ensures others { read_faults self.new ≡ read_faults self.old }
        ensures grows { write_faults self.old ≤ write_faults self.new }
        ensures failed { OnErr result (Rose (write_faults self.old) (write_faults self.new)) };

    /// What a crash may have left since a moment, it may have left between that one and a later
    /// one, or since the later one.
    ghost time: { (d : Self) (t u : ℕ) (c : List ℕ) → t ≤ u →
        (left_since d t c ↔ (left_between d t u c ⊎ left_since d u c)) };
}
