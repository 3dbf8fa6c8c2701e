//! Formulas over the positions of switches, each once.
ghost use Rattle.std.specs.Prelude.{◌≡◌, ◌↔◌, ◌<◌, length, slice_get, Some, IfOk, IfSome, OnOk, IsTrue, true, List};
ghost use Rattle.interlock_terms.specs.Terms.{Values, Solves, IsTrueAt, Grew, MeansBoth, MeansEither, Implies, AreOrdered};

use crate::term::{Term, is_stronger, is_weaker, refers_below};
use ilk_base::{Memory, SwitchId};
use std::alloc::Global;
use std::collections::HashMap;
use std::marker::Model;

/// Formulas that differ, in the order in which they were made, seen as the list of them. Each is made of earlier ones.
#[derive(Drop)]
pub struct Terms {
    list: Vec<Term>,
    // the number of each term of the list
    numbers: HashMap<Term, usize>,
}

impl Model for Terms {
    ghost use Rattle.interlock_terms.specs.Terms.{AreOrdered};
    ghost use Rattle.interlock_terms.specs.declared.term.Term.{Term};
    ghost use Rattle.std.specs.Prelude.{List};

    ghost Value = { List Term };

    ghost view = { λ s. s.list.items };

    ghost invariant = { λ s. AreOrdered s.list.items };
}

impl Terms {
    /// No formula. Takes no memory.
    pub fn new(alloc: Global) -> Terms {
        Terms {
            list: Vec::new(alloc),
            numbers: HashMap::new(alloc),
        }
    }

    /// How many there are, at once.
    pub fn len(&self) -> usize
        ensures count { result ≡ length self.now }
        ensures ordered { AreOrdered self.now }
    {
        self.list.len()
    }

    /// The formula of this number, at once.
    pub fn term(&self, number: usize) -> Option<Term>
        ensures value { result ≡ slice_get self.now number }
        ensures ordered { AreOrdered self.now }
    {
        self.list.get(number).copied()
    }

    /// The formula of a number that one has, at once.
    pub fn get(&self, number: usize) -> Term
        requires { number < length self.now }
        ensures value { slice_get self.now number ≡ Some result }
        ensures ordered { AreOrdered self.now }
    {
        self.term(number).unwrap_or(Term::Always)
    }

    // The number of a term that is there.
    fn number_of(&self, term: Term) -> Option<usize>
        ensures { IfSome result (λ n. slice_get self.now n ≡ Some term) }
    {
        let number = *self.numbers.get(&term)?;
        if self.term(number)? == term {
            Some(number)
        } else {
            None
        }
    }

    // The number of a term, which is put at the end where it is new. One that names a term that is not there is refused
    // as want of memory is.
    fn add(&mut self, term: Term) -> Result<usize, Memory>
        ensures grew { OnOk result (Grew self.old self.new) }
        ensures is { IfOk result (λ n. slice_get self.new n ≡ Some term) }
    {
        if let Some(number) = self.number_of(term) {
            return Ok(number);
        }
        let number = self.list.len();
        if !refers_below(term, number) {
            return Err(Memory);
        }
        self.numbers.insert(term, number)?;
        self.list.push(term)?;
        Ok(number)
    }

    /// A formula that is true.
    pub fn always(&mut self) -> Result<usize, Memory>
        ensures grew { OnOk result (Grew self.old self.new) }
        ensures means { IfOk result (λ n. (v : Values) → Solves v self.new → IsTrueAt v n) }
    {
        let number = self.add(Term::Always)?;
        Ok(number)
    }

    /// A formula that is true where the switch counts as closed.
    pub fn closed(&mut self, switch: SwitchId) -> Result<usize, Memory>
        ensures grew { OnOk result (Grew self.old self.new) }
        ensures means { IfOk result (λ n. (v : Values) → Solves v self.new
            → IsTrueAt v n ↔ (slice_get v.closed switch.0 ≡ Some true)) }
    {
        let number = self.add(Term::Closed(switch))?;
        Ok(number)
    }

    // Whether the second is true wherever the first is, as far as one of them tells by its form.
    fn implies(&self, first: usize, second: usize) -> bool
        ensures { IsTrue result → Implies self.now first second }
    {
        if first == second {
            return true;
        }
        if is_weaker(self.term(second), first) {
            return true;
        }
        is_stronger(self.term(first), second)
    }

    /// A formula for both of two. The numbers are those of formulas that were made here; with another number the call may
    /// give `Memory`.
    pub fn both(&mut self, first: usize, second: usize) -> Result<usize, Memory>
        ensures grew { OnOk result (Grew self.old self.new) }
        ensures means { IfOk result (λ n. MeansBoth self.new n first second) }
    {
        if self.implies(first, second) {
            return Ok(first);
        }
        if self.implies(second, first) {
            return Ok(second);
        }
        let number = self.add(Term::Both(first, second))?;
        Ok(number)
    }

    /// A formula for one of two, of whose numbers the same is to be said.
    pub fn either(&mut self, first: usize, second: usize) -> Result<usize, Memory>
        ensures grew { OnOk result (Grew self.old self.new) }
        ensures means { IfOk result (λ n. MeansEither self.new n first second) }
    {
        if self.implies(first, second) {
            return Ok(second);
        }
        if self.implies(second, first) {
            return Ok(first);
        }
        let number = self.add(Term::Either(first, second))?;
        Ok(number)
    }
}
