//! Laws of the texts.
ghost use Rattle.std.specs.Prelude.{◌≡◌, List, ℕ, Result, Ok};
ghost use Rattle.ssd_text.specs.declared.refusal.TextRefusal.{TextRefusal as Refusal};
ghost use Rattle.ssd_text.specs.Grammar.{value_of};
ghost use Rattle.ssd_text.specs.Escapes.{escaped};
ghost use Rattle.ssd_text.specs.Nesting.{Spells, Entry, IsInOrder};
ghost use Rattle.ssd_text.specs.Document.{SpellsDocument};

/// No text has two outcomes: it spells one tree, or it has one first fault.
pub fn one_outcome()
    ensures { (text : List ℕ) (o w : Result (List Entry) Refusal) → Spells text o → Spells text w → o ≡ w }
{}

/// What is read spells a document: UTF-8, and behind a byte order mark one root element in which
/// elements stand in one another, each with a start and an end tag of one name, 64 deep at most and
/// 200,000 at most. Beside the root only comments, instructions and white space stand.
pub fn accepted_is_document()
    ensures { (text : List ℕ) (tree : List Entry) → Spells text (Ok tree) → SpellsDocument text }
{}

/// Each text that spells a document is read.
pub fn document_is_accepted()
    ensures { (text : List ℕ) → SpellsDocument text → (tree : List Entry) × Spells text (Ok tree) }
{}

/// The elements that are read stand in order: each parent comes before its children, and what
/// stands between the two stands below that parent.
pub fn read_in_order()
    ensures { (text : List ℕ) (tree : List Entry) → Spells text (Ok tree) → IsInOrder tree }
{}

/// Decoding gives back what was escaped: a value in which `&`, `<`, quotes, tabs and line ends are written as
/// references is read as it was (XML 1.0, 2.4 and 3.3.3). So each value can be written.
#[tactic(auto, using(crate::proofs::Escapes::read_back))]
pub fn escaped_is_read_back()
    ensures { (value : List ℕ) → value_of (escaped value) ≡ value }
{}
