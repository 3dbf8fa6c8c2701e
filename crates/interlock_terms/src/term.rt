//! One formula over the positions of switches.
ghost use Rattle.std.specs.Prelude.{IsTrue};
ghost use Rattle.interlock_terms.specs.Terms.{IsWeaker, IsStronger, RefersBelow};

use ilk_base::SwitchId;

/// A formula, made of earlier ones, which it names by their numbers.
#[derive(Clone, Copy, PartialEq, Eq, Hash)]
pub enum Term {
    /// true
    Always,
    /// the switch counts as closed
    Closed(SwitchId),
    /// both of two earlier formulas
    Both(usize, usize),
    /// one of two earlier formulas
    Either(usize, usize),
}

// Whether the term is true wherever the one of this number is, as far as its own form tells.
pub(crate) fn is_weaker(term: Option<Term>, number: usize) -> bool
    ensures { IsTrue result → IsWeaker term number }
{
    match term {
        Some(Term::Always) => true,
        Some(Term::Either(a, b)) => a == number || b == number,
        _ => false,
    }
}

// Whether the one of this number is true wherever the term is, as far as its own form tells.
pub(crate) fn is_stronger(term: Option<Term>, number: usize) -> bool
    ensures { IsTrue result → IsStronger term number }
{
    match term {
        Some(Term::Both(a, b)) => a == number || b == number,
        _ => false,
    }
}

// Whether the term names those of numbers below this one alone.
pub(crate) fn refers_below(term: Term, count: usize) -> bool
    ensures { IsTrue result → RefersBelow count term }
{
    match term {
        Term::Both(a, b) | Term::Either(a, b) => a < count && b < count,
        Term::Always | Term::Closed(_) => true,
    }
}
