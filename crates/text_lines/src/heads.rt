//! What a line begins with.
ghost use Rattle.std.specs.Prelude.{List, ℕ, ◌↔◌, IsTrue, IfSome, IfNone};
ghost use Rattle.text_lines.specs.Lines.{EndsPlainly, Continues};

// Whether there is a last byte, and it is not CR.
fn ends_plainly(bytes: &[u8]) -> bool
    ensures { IsTrue result ↔ EndsPlainly bytes.now }
{
    match bytes.last() {
        Some(byte) => *byte != b'\r',
        None => false,
    }
}

/// What follows the head in the line; none where the line begins otherwise, where nothing follows, or where
/// the line ends with CR, which is part of the end of a line only before LF. Time: the length of the head.
pub fn after<'a>(line: &'a [u8], head: &[u8]) -> Option<&'a [u8]>
    ensures some { IfSome result (λ rest. Continues head.now rest.now line.now) }
    ensures none { IfNone result ((rest : List ℕ) → ¬ Continues head.now rest line.now) }
{
    let Some(rest) = line.strip_prefix(head) else {
        return None;
    };
    if !ends_plainly(rest) {
        return None;
    }
    Some(rest)
}
