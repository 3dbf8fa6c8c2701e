//! Lists of numbers of values, each kept once and in half the room of those that are at work.
ghost use Rattle.std.specs.Prelude.{◌≡◌, ◌<◌, length, map, slice_get, Some, IfOk, IfSome, OnOk, IsTrue};
ghost use Rattle.judge_pool.specs.Pooling.{IsPool, GrewTo};
ghost use Rattle.judge_pool.specs.Numbered.{letter_lists};

use crate::pool::Pool;
use ilk_base::Memory;
use number_hash::{NumberHasher, NumberMap};
use std::alloc::Global;
use std::hash::{Hash, Hasher};

// The numbers, in 32 bits each. There is no room for a number that has more.
pub(crate) fn narrowed(alloc: Global, ids: &[usize]) -> Result<Vec<u32>, Memory>
    ensures { IfOk result (λ v. v.items ≡ ids.now) }
{
    let mut list = vec![in alloc; 0; ids.len()]?;
    for c in 0..ids.len() {
        let id = ids[c];
        if id > u32::MAX as usize {
            return Err(Memory);
        }
        list[c] = id as u32;
    }
    Ok(list)
}

// The numbers, as those that are at work.
pub(crate) fn widened(alloc: Global, ids: &[u32]) -> Result<Vec<usize>, Memory>
    ensures { IfOk result (λ v. v.items ≡ ids.now) }
{
    let mut list = vec![in alloc; 0; ids.len()]?;
    for c in 0..ids.len() {
        list[c] = ids[c] as usize;
    }
    Ok(list)
}

// The list at a place.
pub(crate) fn list_at(lists: &[Vec<u32>], place: usize) -> &[u32]
    requires { place < length lists.now }
    ensures { slice_get (map (λ v. v.items) lists.now) place ≡ Some result.now }
{
    lists[place].as_slice()
}

// A hash of the numbers.
fn hash_of(ids: &[usize]) -> u64 {
    let mut hasher = NumberHasher::default();
    ids.hash(&mut hasher);
    hasher.finish()
}

// Whether the list is of these numbers.
fn is_list_of(list: &[u32], ids: &[usize]) -> bool
    ensures { IsTrue result → list.now ≡ ids.now }
{
    if list.len() != ids.len() {
        return false;
    }
    for c in 0..ids.len() {
        if list[c] as usize != ids[c] {
            return false;
        }
    }
    true
}

// The place, if the list of these numbers stands there.
fn list_if_at(lists: &[Vec<u32>], place: usize, ids: &[usize]) -> Option<usize>
    ensures { IfSome result (λ l. slice_get (map (λ v. v.items) lists.now) l ≡ Some ids.now) }
{
    if place >= lists.len() {
        return None;
    }
    if is_list_of(list_at(lists, place), ids) {
        Some(place)
    } else {
        None
    }
}

// The place of the list of these numbers, which is looked for where the last list of its hash was put.
fn find_numbers(
    places: &NumberMap<u64, usize>,
    lists: &[Vec<u32>],
    hash: u64,
    ids: &[usize],
) -> Option<usize>
    ensures { IfSome result (λ l. slice_get (map (λ v. v.items) lists.now) l ≡ Some ids.now) }
{
    match places.get(&hash) {
        Some(place) => list_if_at(lists, *place, ids),
        None => None,
    }
}

impl Pool {
    // Puts the list last.
    fn put_letters(&mut self, list: Vec<u32>) -> Result<usize, Memory>
        requires { IsPool self.old }
        ensures grew { OnOk result (GrewTo self.old self.new) }
        ensures noted { IfOk result (λ l. slice_get (letter_lists self.new) l ≡ Some list.items) }
    {
        let held = self.letters.as_slice();
        let place = held.len();
        self.letters.push(list)?;
        Ok(place)
    }

    // The number of the list of letters or states, which is put last where the pool has not got it.
    pub(crate) fn note_letters(&mut self, alloc: Global, letters: &[usize]) -> Result<usize, Memory>
        requires { IsPool self.old }
        ensures grew { OnOk result (GrewTo self.old self.new) }
        ensures noted { IfOk result (λ l. slice_get (letter_lists self.new) l ≡ Some letters.now) }
    {
        let hash = hash_of(letters);
        match find_numbers(&self.letter_places, &self.letters, hash, letters) {
            Some(place) => Ok(place),
            None => {
                let list = narrowed(alloc, letters)?;
                let place = self.put_letters(list)?;
                self.letter_places.insert(hash, place)?;
                Ok(place)
            }
        }
    }
}
