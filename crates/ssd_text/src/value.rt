//! The decoded value of an attribute.

ghost use Rattle.std.specs.Prelude.{◌≡◌, ◌≤◌, ◌<◌, length, IfOk, string_bytes, encode_utf8, IsUtf8};
ghost use Rattle.std.specs.List.{prefix_len};
ghost use Rattle.std.specs.Str.{IsCharBoundary};
ghost use Rattle.ssd_text.specs.Grammar.{is_plain, value_of, special};

use crate::bytes::is_white;
use crate::references::reference;
use crate::tree::Attr;
use ilk_base::Memory;
use std::alloc::Global;

#[tactic(auto, unfolding(crate::specs::Grammar::is_plain))]
fn is_plain(b: u8) -> bool
    ensures { result ≡ is_plain b }
{
    b != b'&' && !is_white(b)
}

// How many bytes in front stand for themselves.
#[tactic(auto, using(std::proofs::lemmas::List::Sums::prefix_len_is))]
fn plain_len(bytes: &[u8]) -> usize
    ensures value { result ≡ prefix_len is_plain bytes.now }
    ensures within { result ≤ length bytes.now }
{
    for (i, b) in bytes.iter().enumerate() {
        if !is_plain(*b) {
            return i;
        }
    }
    bytes.len()
}

// The character for which the bytes in front stand, where they do not stand for themselves, and how many they are.
#[tactic(auto, unfolding(crate::specs::Grammar::special))]
fn special(bytes: &[u8]) -> (char, usize)
    requires { 0 < length bytes.now }
    ensures value { result ≡ special bytes.now }
    ensures some { 0 < result.1 }
    ensures within { result.1 ≤ length bytes.now }
{
    match bytes {
        [b'&', rest @ ..] => match reference(rest) {
            Some((c, len)) => (c, len + 1),
            None => ('&', 1),
        },
        [b'\r', b'\n', ..] => (' ', 2),
        _ => (' ', 1),
    }
}

impl Attr<'_> {
    /// The value for which the raw text stands (XML 1.0, 3.3.3, for an attribute of character data):
    /// each reference is replaced by its character, and each written CR LF, CR, LF and tab by one
    /// space. In time of the raw text's length; the value is no longer than that.
    pub fn value(&self, alloc: Global) -> Result<String, Memory>
        ensures { IfOk result (λ s. string_bytes s ≡ value_of self.now.raw.now) }
    {
        let mut value = String::new(alloc);
        let mut rest = self.raw;
        loop {
            let (plain, tail) = rest.split_at(plain_len(rest.as_bytes()));
            value.push_str(plain)?;
            if tail.is_empty() {
                return Ok(value);
            }
            let (c, len) = special(tail.as_bytes());
            value.push(c)?;
            let (_, tail) = tail.split_at(len);
            rest = tail;
        }
    }
}
