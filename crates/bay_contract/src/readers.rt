//! What the alphabets of a station answer.
ghost use Rattle.std.specs.Prelude.{◌≡◌, ℕ, ◌^◌, ◌<◌, ◌≤◌, ◌↔◌, Bool, List, Some, length, slice_get, IfOk, IfSome};
ghost use Rattle.std.specs.Prelude.{MatchOption};
ghost use Rattle.station_graph.specs.Diagram.{Diagram};
ghost use Rattle.station_graph.specs.Connection.{a_switch};
ghost use Rattle.station_graph.specs.Sharing.{OfPart};
ghost use Rattle.station_graph.specs.Alike.{IsVector, Alike, DifferInPart};
ghost use Rattle.contraction.specs.Stands.{StandsFor};
ghost use Rattle.part_alphabets.specs.Counting.{AreStepSizes};
ghost use Rattle.part_alphabets.specs.Diagrams.{ForksLeadTo};
ghost use Rattle.part_alphabets.specs.Targets.{number_of, IsTargetOf, IsStepAt};
ghost use Rattle.part_alphabets.specs.PartAlphabets.{letters_of, size_of, example_of, forks_of, IsPosition, StandsAt};
ghost use Rattle.part_alphabets.specs.Alphabets.{AreAlphabets, IsLetter, HasIndex, IsExample, CanHave, IsAgreeing};
ghost use Rattle.part_alphabets.specs.Alphabets.{KeepsPosition, IsPossible};

use crate::parts::Parts;
use crate::possible::IndexSet;
use contraction::Contraction;
use double_points::Readings;
use ilk_base::{BayId, Memory, SwitchId};
use part_alphabets::{PartStep, Target};
use station_graph::Vector;
use std::alloc::Global;

impl Parts {
    /// How many indices the part has, from 1 to `LETTERS`, at once. Takes no memory.
    pub fn size(&self, part: BayId) -> u8
        requires { part.0 < length self.now.parts }
        ensures size { result ≡ size_of self.now part.0 }
        ensures some { 0 < result }
    {
        self.part(part).size()
    }

    /// The contractions of the part's indices, in their order, at once. Takes no memory.
    pub fn letters(&self, part: BayId) -> &[Contraction]
        requires { part.0 < length self.now.parts }
        ensures { result.now ≡ letters_of self.now part.0 }
    {
        &self.part(part).letters
    }

    /// The contraction of this index: of the part's items, on the nodes that it shares, in each position
    /// that has the index. At once; takes no memory.
    pub fn contraction(&self, part: BayId, index: u8) -> &Contraction
        requires part { part.0 < length self.now.parts }
        requires index { index < size_of self.now part.0 }
        ensures letter { slice_get (letters_of self.now part.0) index ≡ Some result.now }
        ensures kept { (d : Diagram) → AreAlphabets d self.now → IsLetter d part.0 result.now }
        ensures stands { (d : Diagram) (v : List Bool) → HasIndex d self.now part.0 index v
            → StandsFor (OfPart d part.0) d v result.now }
    {
        self.part(part).letter(index)
    }

    /// The least position that has this index, as bits: bit i is 1 where switch i of the part is closed.
    /// Positions are compared from the first switch, off before on. At once; takes no memory.
    pub fn example(&self, part: BayId, index: u8) -> u32
        requires part { part.0 < length self.now.parts }
        requires index { index < size_of self.now part.0 }
        ensures value { result ≡ example_of self.now part.0 index }
        ensures position { IsPosition self.now part.0 result }
        ensures least { (d : Diagram) → AreAlphabets d self.now → IsExample d self.now part.0 index result }
    {
        self.part(part).example(index)
    }

    /// The index of the part in the vector. Two vectors have the same index exactly where the part stands
    /// alike in them. Time: the switches of the part. Takes no memory.
    pub fn index_of(&self, part: BayId, vector: &Vector) -> u8
        requires part { part.0 < length self.now.parts }
        requires vector { length vector.now ≡ self.now.switches }
        ensures within { result < size_of self.now part.0 }
        ensures leads { ForksLeadTo (forks_of self.now part.0) vector.now result }
        ensures has { (d : Diagram) → AreAlphabets d self.now → HasIndex d self.now part.0 result vector.now }
        ensures alike { (d : Diagram) (w : List Bool) (k : ℕ) → AreAlphabets d self.now → IsVector d w
            → HasIndex d self.now part.0 k w → Alike d part.0 vector.now w ↔ (result ≡ k) }
    {
        self.part(part).index_of(vector)
    }

    /// Puts the part's switches into this position, bit i for switch i of the part, and leaves all others.
    /// Time: the switches of the part. Takes no memory.
    pub fn put(&self, part: BayId, position: u32, vector: &mut Vector)
        requires part { part.0 < length self.now.parts }
        requires position { IsPosition self.now part.0 position }
        requires vector { length vector.old ≡ self.now.switches }
        ensures count { length vector.new ≡ length vector.old }
        ensures stands { StandsAt self.now part.0 position vector.new }
        ensures others { (d : Diagram) → AreAlphabets d self.now → DifferInPart d part.0 vector.old vector.new }
    {
        self.part(part).put(position, vector);
    }

    /// How many steps the part's decision diagram has, at once: the sum of the numbers of distinct
    /// contractions before each of its switches. Takes no memory.
    pub fn steps(&self, part: BayId) -> u32
        requires { part.0 < length self.now.parts }
        ensures count { result ≡ length (forks_of self.now part.0) }
        ensures sizes { (d : Diagram) → AreAlphabets d self.now → AreStepSizes d part.0 result }
    {
        self.part(part).steps()
    }

    /// Where the part's decision diagram begins: at step 0, or at its only index. From there each vector
    /// leads to its index, where a step is left by `off` if its switch is open, and by `on` if it is
    /// closed. At once; takes no memory.
    pub fn start(&self, part: BayId) -> Target
        requires { part.0 < length self.now.parts }
        ensures first { number_of (length (forks_of self.now part.0)) result ≡ 0 }
        ensures target { IsTargetOf (length (forks_of self.now part.0)) result }
        ensures leads { (d : Diagram) (v : List Bool) (i : ℕ) → AreAlphabets d self.now → IsVector d v
            → HasIndex d self.now part.0 i v ↔ ForksLeadTo (forks_of self.now part.0) v i }
    {
        self.part(part).start()
    }

    /// The step of this number. It tests a switch of the part, and its targets are later steps or indices.
    /// At once; takes no memory.
    pub fn step(&self, part: BayId, i: u32) -> PartStep
        requires part { part.0 < length self.now.parts }
        requires step { i < length (forks_of self.now part.0) }
        ensures step { IsStepAt self.now.switches (size_of self.now part.0) (forks_of self.now part.0) i result }
        ensures off { IsTargetOf (length (forks_of self.now part.0)) result.off }
        ensures on { IsTargetOf (length (forks_of self.now part.0)) result.on }
        ensures own { (d : Diagram) → AreAlphabets d self.now → OfPart d part.0 (a_switch result.switch.0) }
    {
        self.part(part).step(i)
    }

    /// Exactly the indices of positions in which each switch of the part agrees with its word, each with such
    /// a position. Time and memory: the steps of the part.
    pub fn possible(
        &self,
        alloc: Global,
        part: BayId,
        readings: &Readings,
    ) -> Result<IndexSet, Memory>
        requires part { part.0 < length self.now.parts }
        requires readings { length readings.now ≡ self.now.switches }
        ensures count { IfOk result (λ s. length s ≡ size_of self.now part.0) }
        ensures positions { IfOk result (λ s. (i p : ℕ) → KeepsPosition s i p → IsPosition self.now part.0 p) }
        ensures possible { IfOk result (λ s. (d : Diagram) → AreAlphabets d self.now
            → IsPossible d self.now part.0 readings.now s) }
    {
        let set = self.part(part).possible(alloc, readings)?;
        Ok(set)
    }

    /// A position, as bits, in which each switch of the part agrees with its word and which has this
    /// index; none exactly where there is none. Time and memory: the steps of the part. `possible` gives them
    /// for all indices in the same time.
    pub fn agreeing(
        &self,
        alloc: Global,
        part: BayId,
        readings: &Readings,
        index: u8,
    ) -> Result<Option<u32>, Memory>
        requires part { part.0 < length self.now.parts }
        requires readings { length readings.now ≡ self.now.switches }
        requires index { index < size_of self.now part.0 }
        ensures position { IfOk result (λ o. IfSome o (IsPosition self.now part.0)) }
        ensures exact { IfOk result (λ o. (d : Diagram) → AreAlphabets d self.now
            → MatchOption o (¬ CanHave d self.now part.0 readings.now index)
            (IsAgreeing d self.now part.0 readings.now index)) }
    {
        let set = self.possible(alloc, part, readings)?;
        Ok(set.position(index))
    }
}
