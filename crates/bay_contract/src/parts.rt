//! The alphabets of all parts.
ghost use Rattle.std.specs.Prelude.{◌≡◌, ℕ, ◌+◌, ◌<◌, ◌≤◌, ◌++◌, ◌∷◌, [], Some, length, slice_get, IfOk, IfErr};
ghost use Rattle.station_graph.specs.Diagram.{part_count};
ghost use Rattle.part_alphabets.specs.Counting.{PartFits};
ghost use Rattle.part_alphabets.specs.PartAlphabets.{part_at};
ghost use Rattle.part_alphabets.specs.Alphabets.{AreAlphabets};
ghost use Rattle.bay_contract.specs.Refusing.{IsRefusal};

use crate::alphabet::{Alphabet, alphabet_of};
use crate::refusal::PartsRefusal;
use ilk_base::{BayId, Memory};
use station_graph::Station;
use std::alloc::Global;
use std::marker::Model;

/// The alphabets of the parts of a station: for each part the list of its distinct contractions on the
/// nodes that it shares with other parts. A letter of this list is named by its place, its index, so a
/// part has one index in each position of its switches.
///
/// A decision diagram leads from the positions of a part's switches to its index.
#[derive(Drop)]
pub struct Parts {
    switches: u16,
    alphabets: Vec<Alphabet>,
}

impl Model for Parts {
    ghost use Rattle.part_alphabets.specs.PartAlphabets.{Alphabets};
    ghost use Rattle.bay_contract.specs.Shapes.{AreUniform};

    ghost Value = { Alphabets };

    ghost use Rattle.bay_contract.specs.PartsInside.{alphabets_in};

    ghost view = { alphabets_in };

    ghost invariant = { λ p. AreUniform (alphabets_in p) };
}

// Puts one more alphabet last.
fn keep(alphabets: &mut Vec<Alphabet>, alphabet: Alphabet) -> Result<(), Memory>
    ensures { IfOk result (λ _. alphabets.new.items ≡ alphabets.old.items ++ alphabet ∷ []) }
{
    alphabets.push(alphabet)?;
    Ok(())
}

impl Parts {
    /// The alphabets of the station's parts. `Many` names the first part, in document order, that has too
    /// many distinct contractions, and the first of its switches after which it has: more than
    /// `CONTRACTIONS`, or more than `LETTERS` after its last switch. Time: the contractions after each switch of
    /// a part, each composed with the next switch, once for parts that are like each other. Memory: those of one
    /// part, and the alphabets.
    pub fn new(alloc: Global, station: &Station) -> Result<Parts, PartsRefusal>
        ensures alphabets { IfOk result (AreAlphabets station.now) }
        ensures fits { IfOk result (λ _. (part : ℕ) → part < part_count station.now → PartFits station.now part) }
        ensures refusal { IfErr result (IsRefusal station.now) }
    {
        let mut alphabets = Vec::new(alloc);
        let mut patterns = Vec::new(alloc);
        'parts: for part in 0..station.part_count() {
            let made = alphabet_of(alloc, station, BayId(part as u8), &mut patterns);
            match made {
                Ok(alphabet) => {
                    keep(&mut alphabets, alphabet)?;
                }
                Err(refusal) => {
                    return Err(refusal);
                }
            }
        }
        Ok(Parts {
            switches: station.switch_count(),
            alphabets,
        })
    }

    // The alphabet of a part, at once.
    pub(crate) fn part(&self, part: BayId) -> &Alphabet
        requires { part.0 < length self.now.parts }
        ensures value { result.now ≡ part_at self.now part.0 }
        ensures switches { result.now.switches ≡ self.now.switches }
    {
        &self.alphabets[part.0 as usize]
    }
}
