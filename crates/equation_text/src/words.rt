//! The words of a line.
ghost use Rattle.std.specs.Prelude.{◌≡◌, ◌≢◌, ◌++◌, ◌==◌, List, ℕ, Option, codes, IfSome, IfNone, position};
ghost use Rattle.ilk_base.specs.declared.words.Rule.{Rule as RuleOf};
ghost use Rattle.part_alphabets.specs.declared.fork.Target.{Target as TargetOf};
ghost use Rattle.station_equations.specs.declared.goal.Goal.{Goal as GoalOf};
ghost use Rattle.station_equations.specs.declared.goal.TheConstants.{NUMBERS};
ghost use Rattle.station_equations.specs.EquationForm.{IsTarget, IsGoal};
ghost use Rattle.station_equations.specs.EquationText.{target_text, goal_text};
ghost use Rattle.equation_text.specs.Words.{Lacks, IsCut, IsFirstWord, numbered_head};

use ilk_base::Rule;
use itoa::Buffer;
use part_alphabets::Target;
use station_equations::{GREATEST_INDEX, Goal};
use text_lines::decimal_number;

// The place of the first such byte.
fn first(text: &[u8], byte: u8) -> Option<usize>
    ensures { result ≡ position (λ b. b == byte) text.now }
{
    text.iter().position(|b| *b == byte)
}

// What stands before the first such byte of the text, and what behind it.
fn cut(text: &[u8], byte: u8) -> Option<(&[u8], &[u8])>
    ensures some { IfSome result (λ p. IsCut byte text.now p.0.now p.1.now) }
    ensures none { IfNone result (Lacks byte text.now) }
{
    let Some(end) = first(text, byte) else {
        return None;
    };
    Some((&text[..end], &text[end + 1..]))
}

// The first line of a text that ends with LF, and what follows it.
pub(crate) fn cut_line(text: &[u8]) -> Option<(&[u8], &[u8])>
    ensures some { IfSome result (λ p. IsCut 10 text.now p.0.now p.1.now) }
    ensures none { IfNone result (Lacks 10 text.now) }
{
    cut(text, b'\n')
}

// The first word of a line before a blank, and what follows the blank.
pub(crate) fn cut_word(line: &[u8]) -> Option<(&[u8], &[u8])>
    ensures some { IfSome result (λ p. IsCut 32 line.now p.0.now p.1.now) }
    ensures none { IfNone result (Lacks 32 line.now) }
{
    cut(line, b' ')
}

// The first word of a text, and what follows it from the blank on.
pub(crate) fn first_word(text: &[u8]) -> (&[u8], &[u8])
    ensures { IsFirstWord text.now result.0.now result.1.now }
{
    let Some(end) = first(text, b' ') else {
        return (text, &text[text.len()..]);
    };
    (&text[..end], &text[end..])
}

// What follows the head in the line.
pub(crate) fn behind<'a>(line: &'a [u8], head: &[u8]) -> Option<&'a [u8]>
    ensures some { IfSome result (λ rest. line.now ≡ head.now ++ rest.now) }
    ensures none { IfNone result ((rest : List ℕ) → line.now ≢ head.now ++ rest) }
{
    let Some(rest) = line.strip_prefix(head) else {
        return None;
    };
    Some(rest)
}

// What follows the head, this number and a blank in the line.
pub(crate) fn behind_number<'a>(line: &'a [u8], head: &[u8], n: u32) -> Option<&'a [u8]>
    ensures some { IfSome result (λ rest. line.now ≡ numbered_head head.now n ++ rest.now) }
    ensures none { IfNone result ((rest : List ℕ) → line.now ≢ numbered_head head.now n ++ rest) }
{
    let Some(rest) = behind(line, head) else {
        return None;
    };
    let mut digits = Buffer::new();
    let Some(rest) = behind(rest, digits.format(n).as_bytes()) else {
        return None;
    };
    let Some(rest) = behind(rest, b" ") else {
        return None;
    };
    Some(rest)
}

// The index that a word is.
fn index(word: &[u8]) -> Option<Target>
    ensures some { IfSome result (λ t. IsTarget NUMBERS t × (codes "=" ++ word.now ≡ target_text t)) }
    ensures none { IfNone result ((t : TargetOf) → IsTarget NUMBERS t → codes "=" ++ word.now ≢ target_text t) }
{
    let Some(number) = decimal_number(word) else {
        return None;
    };
    if number > u32::from(GREATEST_INDEX) {
        return None;
    }
    Some(Target::Index(number as u8))
}

// The step's number that a word is.
fn step(word: &[u8]) -> Option<Target>
    requires { (rest : List ℕ) → word.now ≢ codes "=" ++ rest }
    ensures some { IfSome result (λ t. IsTarget NUMBERS t × (word.now ≡ target_text t)) }
    ensures none { IfNone result ((t : TargetOf) → IsTarget NUMBERS t → word.now ≢ target_text t) }
{
    let Some(number) = decimal_number(word) else {
        return None;
    };
    Some(Target::Step(number))
}

// The target that the word is.
pub(crate) fn target(word: &[u8]) -> Option<Target>
    ensures some { IfSome result (λ t. IsTarget NUMBERS t × (word.now ≡ target_text t)) }
    ensures none { IfNone result ((t : TargetOf) → IsTarget NUMBERS t → word.now ≢ target_text t) }
{
    let Some(digits) = behind(word, b"=") else {
        return step(word);
    };
    let Some(index) = index(digits) else {
        return None;
    };
    Some(index)
}

// The answer that a word is.
fn answer(word: &[u8]) -> Option<Option<Rule>>
    ensures some { IfSome result (λ a. word.now ≡ goal_text (GoalOf.Answer a)) }
    ensures none { IfNone result ((a : Option RuleOf) → word.now ≢ goal_text (GoalOf.Answer a)) }
{
    if word == b"ok".as_slice() {
        Some(None)
    } else if word == b"R1".as_slice() {
        Some(Some(Rule::R1))
    } else if word == b"R2".as_slice() {
        Some(Some(Rule::R2))
    } else if word == b"R3".as_slice() {
        Some(Some(Rule::R3))
    } else {
        None
    }
}

// The goal that the word is.
pub(crate) fn goal(word: &[u8]) -> Option<Goal>
    ensures some { IfSome result (λ g. IsGoal NUMBERS g × (word.now ≡ goal_text g)) }
    ensures none { IfNone result ((g : GoalOf) → IsGoal NUMBERS g → word.now ≢ goal_text g) }
{
    if let Some(answer) = answer(word) {
        return Some(Goal::Answer(answer));
    }
    let Some(number) = decimal_number(word) else {
        return None;
    };
    Some(Goal::Node(number))
}
