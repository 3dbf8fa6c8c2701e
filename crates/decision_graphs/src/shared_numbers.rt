//! Numbers that more than one owner holds.
ghost use Rattle.std.specs.Prelude.{◌≡◌, ◌++◌, ◌∷◌, [], length, map, IfOk, OnOk};
ghost use Rattle.std.specs.List.{concat};
ghost use Rattle.decision_graphs.specs.Placed.{ArePlaces};

use ilk_base::Memory;
use std::alloc::Global;
use std::marker::Model;
use std::rc::Rc;

// Of a list so many numbers are mixed into its hash, and less than twice as many.
const MIXED: usize = 256;

// Places behind so many numbers are not noted.
const PLACES: usize = 4_294_967_296;

// Numbers, and for each number from 0 up, in order, a place at which it stands, as far as such places are noted.
#[derive(Drop)]
pub(crate) struct Placed {
    pub(crate) numbers: Vec<u32>,
    pub(crate) places: Vec<u32>,
}

/// A list of numbers that lies in memory once for all who hold it, as the edges of a layer do for the graphs that have
/// the layer. It has a hash of itself, so that like lists are found without a look at all numbers. Contracts see it as
/// the list.
#[derive(Drop)]
pub struct SharedNumbers {
    held: Rc<Placed>,
    hash: u64,
}

impl Model for SharedNumbers {
    ghost use Rattle.std.specs.Prelude.{ℕ, List};

    ghost Value = { List ℕ };

    ghost use Rattle.decision_graphs.specs.Placed.{ArePlaces};

    ghost view = { λ s. s.held.value.numbers.items };

    ghost invariant = { λ s. ArePlaces s.held.value.numbers.items s.held.value.places.items };
}

// Mixes a number into a hash.
pub(crate) fn mixed(hash: u64, number: u64) -> u64 {
    let sum = hash.rotate_left(5) ^ number;
    sum.wrapping_mul(0x9e37_79b9_7f4a_7c15)
}

// A hash of the length of a list and of some of its numbers, evenly spread.
fn hash_of(list: &[u32]) -> u64 {
    let step = list.len() / MIXED + 1;
    let mut sum = mixed(0, list.len() as u64);
    for number in list.iter().step_by(step) {
        sum = mixed(sum, u64::from(*number));
    }
    sum
}

// For each number from 0 up, in order, the first place at which it stands, as far as these places rise.
fn places_of(alloc: Global, numbers: &[u32]) -> Result<Vec<u32>, Memory>
    ensures { IfOk result (λ v. ArePlaces numbers.now v.items) }
{
    let mut places = Vec::new(alloc);
    for (place, number) in numbers.iter().enumerate() {
        if *number as usize == places.len() && place < PLACES {
            places.push(place as u32)?;
        }
    }
    Ok(places)
}

// These numbers with these places, held by one owner.
fn shared(alloc: Global, numbers: Vec<u32>, places: Vec<u32>) -> Result<SharedNumbers, Memory>
    requires { ArePlaces numbers.items places.items }
    ensures { IfOk result (λ s. s ≡ numbers.items) }
{
    let hash = hash_of(&numbers);
    let held = Rc::new(alloc, Placed { numbers, places })?;
    Ok(SharedNumbers { held, hash })
}

impl SharedNumbers {
    /// These numbers, held by one owner. Constant time; takes 64 bytes beside the numbers.
    pub fn new(alloc: Global, numbers: Vec<u32>) -> Result<SharedNumbers, Memory>
        ensures { IfOk result (λ s. s ≡ numbers.items) }
    {
        shared(alloc, numbers, Vec::new(alloc))
    }

    // The same, with their places noted, where they are edges that many graphs are to have. Linear in numbers; takes 4
    // bytes more for each place.
    pub(crate) fn placed(alloc: Global, numbers: Vec<u32>) -> Result<SharedNumbers, Memory>
        ensures { IfOk result (λ s. s ≡ numbers.items) }
    {
        let places = places_of(alloc, &numbers)?;
        shared(alloc, numbers, places)
    }

    /// The same numbers, held by one owner more. Constant time; takes no memory.
    pub fn share(&self) -> Result<SharedNumbers, Memory>
        ensures { IfOk result (λ s. s ≡ self.now) }
    {
        let held = self.held.clone()?;
        Ok(SharedNumbers {
            held,
            hash: self.hash,
        })
    }

    /// The numbers, lent. Constant time.
    pub fn as_slice(&self) -> &[u32]
        ensures { result.now ≡ self.now }
    {
        &self.held.as_ref().numbers
    }

    // For each number from 0 up, in order, a place at which it stands, as far as such places are noted.
    pub(crate) fn places(&self) -> &[u32]
        ensures { ArePlaces self.now result.now }
    {
        &self.held.as_ref().places
    }

    // A hash of the numbers: lists that are the same have the same one, and others mostly have others.
    pub(crate) fn hash(&self) -> u64 {
        self.hash
    }
}

// Puts one owner more of these numbers behind the lists.
pub(crate) fn put_behind(
    lists: &mut Vec<SharedNumbers>,
    numbers: &SharedNumbers,
) -> Result<(), Memory>
    ensures joined { OnOk result (concat lists.new.items ≡ concat lists.old.items ++ numbers.now) }
    ensures apart { OnOk result (map length lists.new.items ≡ map length lists.old.items ++ length numbers.now ∷ []) }
{
    let held = numbers.share()?;
    lists.push(held)?;
    Ok(())
}
