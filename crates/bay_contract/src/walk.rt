//! From the positions of a part's switches to its index.
ghost use Rattle.std.specs.Prelude.{◌≡◌, ℕ, ◌+◌, ◌^◌, ◌<◌, ◌≤◌, ◌⊎◌, Some, length, slice_get, slice_index};
ghost use Rattle.station_graph.specs.Connection.{Linked};
ghost use Rattle.part_alphabets.specs.declared.limits.TheConstants.{LETTERS};
ghost use Rattle.part_alphabets.specs.Layers.{bits};
ghost use Rattle.part_alphabets.specs.Diagrams.{ForkGoes, ForksFit, ForksLeadTo};
ghost use Rattle.part_alphabets.specs.Targets.{number_of, IsTargetOf, IsStepAt};

use crate::alphabet::Alphabet;
use contraction::Contraction;
use ilk_base::SwitchId;
use part_alphabets::{Fork, PartStep, Target};
use station_graph::Vector;

// Where the steps lead in the vector: the number of steps and an index.
fn walk(forks: &[Fork], size: usize, vector: &Vector) -> usize
    requires fit { ForksFit (length vector.now) size forks.now }
    requires some { 0 < size }
    requires few { size ≤ LETTERS }
    ensures linked { Linked (ForkGoes forks.now vector.now) 0 result }
    ensures past { length forks.now ≤ result }
    ensures within { result < length forks.now + size }
{
    let mut at = 0usize;
    'walking: while at < forks.len() {
        let fork = forks[at];
        if vector.closed(fork.switch) {
            at = fork.on as usize;
        } else {
            at = fork.off as usize;
        }
    }
    at
}

// The target of this number.
fn target_of(at: u32, steps: u32) -> Target
    requires few { at < steps + LETTERS }
    ensures number { number_of steps result ≡ at }
    ensures target { IsTargetOf steps result }
{
    if at < steps {
        Target::Step(at)
    } else {
        Target::Index((at - steps) as u8)
    }
}

// Puts the switches from the first on, so many of them, into this position.
fn put_bits(first: u16, count: u16, position: u32, vector: &mut Vector)
    requires small { position < 2 ^ count }
    requires within { first + count ≤ length vector.old }
    requires room { length vector.old < 2 ^ 16 }
    ensures count { length vector.new ≡ length vector.old }
    ensures stands { bits first count vector.new ≡ position }
    ensures others { (i : ℕ) → i < first ⊎ first + count ≤ i → slice_get vector.new i ≡ slice_get vector.old i }
{
    let mut rest = position;
    'bits: for k in 0..count {
        vector.set(SwitchId(first + k), rest % 2 == 1);
        rest /= 2;
    }
}

impl Alphabet {
    // How many letters it has, at once.
    pub(crate) fn size(&self) -> u8
        ensures size { result ≡ length self.now.letters }
        ensures some { 0 < result }
    {
        self.letters.len() as u8
    }

    // The letter of this index, at once.
    pub(crate) fn letter(&self, index: u8) -> &Contraction
        requires { index < length self.now.letters }
        ensures { slice_get self.now.letters index ≡ Some result.now }
    {
        &self.letters[index as usize]
    }

    // The least position of this index, at once.
    pub(crate) fn example(&self, index: u8) -> u32
        requires { index < length self.now.letters }
        ensures value { result ≡ slice_index self.now.examples index }
        ensures position { result < 2 ^ self.now.count }
    {
        self.examples[index as usize]
    }

    // The index to which the steps lead in the vector. Time: the switches of the part.
    pub(crate) fn index_of(&self, vector: &Vector) -> u8
        requires { length vector.now ≡ self.now.switches }
        ensures leads { ForksLeadTo self.now.forks vector.now result }
        ensures within { result < length self.now.letters }
    {
        let index = walk(&self.forks, self.letters.len(), vector) - self.forks.len();
        index as u8
    }

    // Puts the part's switches into this position. Time: the switches of the part.
    pub(crate) fn put(&self, position: u32, vector: &mut Vector)
        requires position { position < 2 ^ self.now.count }
        requires vector { length vector.old ≡ self.now.switches }
        ensures count { length vector.new ≡ length vector.old }
        ensures stands { bits self.now.first self.now.count vector.new ≡ position }
        ensures others { (i : ℕ) → i < self.now.first ⊎ self.now.first + self.now.count ≤ i
            → slice_get vector.new i ≡ slice_get vector.old i }
    {
        put_bits(self.first, self.count, position, vector);
    }

    // How many steps its decision diagram has, at once.
    pub(crate) fn steps(&self) -> u32
        ensures { result ≡ length self.now.forks }
    {
        self.forks.len() as u32
    }

    // Where its decision diagram begins: at its first step, or at its only index. At once.
    pub(crate) fn start(&self) -> Target
        ensures first { number_of (length self.now.forks) result ≡ 0 }
        ensures target { IsTargetOf (length self.now.forks) result }
    {
        target_of(0, self.steps())
    }

    // The step of this number, at once.
    pub(crate) fn step(&self, i: u32) -> PartStep
        requires { i < length self.now.forks }
        ensures step { IsStepAt self.now.switches (length self.now.letters) self.now.forks i result }
        ensures off { IsTargetOf (length self.now.forks) result.off }
        ensures on { IsTargetOf (length self.now.forks) result.on }
        ensures own { (self.now.first ≤ result.switch.0) × (result.switch.0 < self.now.first + self.now.count) }
    {
        let steps = self.steps();
        let fork = self.forks[i as usize];
        PartStep {
            switch: fork.switch,
            off: target_of(fork.off, steps),
            on: target_of(fork.on, steps),
        }
    }
}
