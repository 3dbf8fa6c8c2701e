//! Words that are types of conducting equipment, and words that differ from them in case alone.
ghost use Rattle.std.specs.Prelude.{◌≡◌, List, ℕ};
ghost use Rattle.std.specs.Borrow.{Bor};
ghost use Rattle.drawing_remarks.specs.Types.{texts, is_among, same_letters, is_spelled};

use crate::nodes::either;

// The types of IEC 61850-6.
pub(crate) const TYPES: [&str; 24] = [
    "CBR", "DIS", "VTR", "CTR", "GEN", "CAP", "REA", "CON", "MOT", "EFN", "PSH", "BAT", "BSH",
    "CAB", "GIL", "LIN", "RES", "RRC", "SAR", "SCR", "SMC", "TCF", "TCR", "IFL",
];

// Those that stand between a node and earth by their nature: voltage transformers, arresters, capacitors, reactors,
// resistors and earth fault neutralisers.
pub(crate) const EARTHED_TYPES: [&str; 6] = ["VTR", "SAR", "CAP", "REA", "RES", "EFN"];

// The tags that are read, but for those of nodes and of terminals.
pub(crate) const READ_TAGS: [&str; 5] = [
    "Substation",
    "VoltageLevel",
    "Bay",
    "PowerTransformer",
    "ConductingEquipment",
];

// Whether a word is one of these.
pub(crate) fn is_among(words: &[&str], word: &[u8]) -> bool
    ensures { result ≡ is_among (texts words.now) word.now }
{
    let mut found = false;
    for other in words {
        found = either(found, word == other.as_bytes());
    }
    found
}

// Whether two words have the same letters, in whatever case.
pub(crate) fn same_letters(a: &str, b: &str) -> bool
    ensures { result ≡ same_letters a.now b.now }
{
    a.eq_ignore_ascii_case(b)
}

// Whether a word has the letters of one of these.
pub(crate) fn is_spelled(words: &[&str], word: &str) -> bool
    ensures { result ≡ is_spelled (texts words.now) word.now }
{
    let mut found = false;
    for other in words {
        found = either(found, same_letters(word, other));
    }
    found
}
