//! The words of operations.
ghost use Rattle.std.specs.Prelude.{◌≡◌};
ghost use Rattle.ilk_base.specs.declared.words.Op.{Op as Operation};
ghost use Rattle.station_graph.specs.Diagram.{Diagram};
ghost use Rattle.station_compare.specs.declared.found.OperationChanges.{OperationChanges as Changes};
ghost use Rattle.station_compare.specs.Words.{IsWord, part_word, rule_word, word_of, worse};
ghost use Rattle.station_compare.specs.Comparing.{AreChanges};

use crate::found::{OperationChanges, RuleChanges};
use change_search::Shown;

/// How an operation that both stations have is judged in the new one.
#[derive(Clone, Copy, PartialEq, Eq)]
pub enum Word {
    /// as in the old one, in every position
    Same,
    /// otherwise in some position, but in none in which all that only one of them has is open
    Kept,
    /// otherwise in such a position
    Changed,
}

impl Word {
    /// The worse of two words: changed before kept, and kept before same.
    pub fn worse(self, other: Word) -> Word
        ensures { result ≡ worse self other }
    {
        match self {
            Word::Changed => Word::Changed,
            Word::Kept => match other {
                Word::Changed => Word::Changed,
                _ => Word::Kept,
            },
            Word::Same => other,
        }
    }
}

// The word of one change by one rule.
fn part_word(part: &Option<Shown>) -> Word
    ensures { result ≡ part_word part.now }
{
    match part {
        Some(shown) => {
            if shown.isolated {
                Word::Changed
            } else {
                Word::Kept
            }
        }
        None => Word::Same,
    }
}

impl RuleChanges {
    // The worst of the three.
    fn word(&self) -> Word
        ensures { result ≡ rule_word self.now }
    {
        part_word(&self.by_r1)
            .worse(part_word(&self.by_r2))
            .worse(part_word(&self.by_r3))
    }
}

impl OperationChanges {
    /// The word of the operation. At once.
    pub fn word(&self) -> Word
        ensures { result ≡ word_of self.now }
    {
        self.stricter.word().worse(self.looser.word())
    }
}

/// Of the changes that are found of an operation the worst says how it is judged. This is a law: the call does nothing.
pub fn word_says()
    ensures { (o n : Diagram) (a b : Operation) (c : Changes) → AreChanges o n a b c → IsWord o n a b (word_of c) }
{}
