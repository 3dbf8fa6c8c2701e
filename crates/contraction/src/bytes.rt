//! The rows of a contraction, which tell contractions apart.
ghost use Rattle.std.specs.Prelude.{◌≡◌, ◌≤◌, ◌↔◌, ◌++◌, ℕ, length, List, IfOk};
ghost use Rattle.contraction.specs.Answers.{Answers, IsContraction, SameGap, SameLoad};
ghost use Rattle.contraction.specs.Rows.{words, flag, flags, row_bytes, bonded_bytes, gap_bytes, load_bytes, gap_row};
ghost use Rattle.contraction.specs.Renaming.{renamed};
ghost use Rattle.contraction.specs.Rows.{load_row, whole_row};

use crate::row::Row;
use crate::value::Contraction;
use ilk_base::{Memory, Text};
use station_graph::NodeList;
use std::alloc::Global;

// Appends two bytes for each of a few numbers, the higher one first, all in one piece.
fn push_few_words(text: &mut Text, row: &[u16]) -> Result<(), Memory>
    requires { length row.now ≤ 32 }
    ensures { IfOk result (λ _. text.new ≡ text.old ++ words row.now) }
{
    let mut bytes = [0; 64];
    for i in 0..row.len() {
        bytes[2 * i] = (row[i] / 256) as u8;
        bytes[2 * i + 1] = (row[i] % 256) as u8;
    }
    text.push(&bytes[..2 * row.len()])
}

// Appends two bytes for each number, the higher one first, number by number.
fn push_many_words(text: &mut Text, row: &[u16]) -> Result<(), Memory>
    ensures { IfOk result (λ _. text.new ≡ text.old ++ words row.now) }
{
    for number in row {
        text.push(&[(number / 256) as u8, (number % 256) as u8])?;
    }
    Ok(())
}

// Appends two bytes for each number, the higher one first. Nearly all rows are short, and are appended
// by one call.
fn push_words(text: &mut Text, row: &[u16]) -> Result<(), Memory>
    ensures { IfOk result (λ _. text.new ≡ text.old ++ words row.now) }
{
    if row.len() <= 32 {
        return push_few_words(text, row);
    }
    push_many_words(text, row)
}

// 1 for a bit that is set.
#[inline(always)]
pub(crate) fn byte_of(bit: bool) -> u8
    ensures { result ≡ flag bit }
{
    if bit { 1 } else { 0 }
}

// Appends one byte for each of a few bits, all in one piece.
fn push_few_flags(text: &mut Text, row: &[bool]) -> Result<(), Memory>
    requires { length row.now ≤ 32 }
    ensures { IfOk result (λ _. text.new ≡ text.old ++ flags row.now) }
{
    let mut bytes = [0; 32];
    for i in 0..row.len() {
        bytes[i] = byte_of(row[i]);
    }
    text.push(&bytes[..row.len()])
}

// Appends one byte for each bit, bit by bit.
fn push_many_flags(text: &mut Text, row: &[bool]) -> Result<(), Memory>
    ensures { IfOk result (λ _. text.new ≡ text.old ++ flags row.now) }
{
    for bit in row {
        text.push(&[byte_of(*bit)])?;
    }
    Ok(())
}

// Appends one byte for each bit; those of a short row by one call.
fn push_flags(text: &mut Text, row: &[bool]) -> Result<(), Memory>
    ensures { IfOk result (λ _. text.new ≡ text.old ++ flags row.now) }
{
    if row.len() <= 32 {
        return push_few_flags(text, row);
    }
    push_many_flags(text, row)
}

// How many bytes the nodes alone, the gap row, the load row and the row of both views have for each kept node.
pub(crate) const KEPT_BYTES: usize = 2;

pub(crate) const GAP_BYTES: usize = 6;

pub(crate) const LOAD_BYTES: usize = 8;

pub(crate) const WHOLE_BYTES: usize = 12;

// The bytes of these nodes, with room for so many bytes in all for each of them.
pub(crate) fn bytes_from(alloc: Global, nodes: &[u16], each: usize) -> Result<Text, Memory>
    ensures { IfOk result (λ t. t ≡ words nodes.now) }
{
    let room = nodes.len().saturating_mul(each);
    let mut text = Text::with_capacity(alloc, room)?;
    push_words(&mut text, nodes)?;
    Ok(text)
}

impl Row {
    // Appends the labels and marks.
    pub(crate) fn push_to(&self, text: &mut Text) -> Result<(), Memory>
        ensures { IfOk result (λ _. text.new ≡ text.old ++ row_bytes self.now) }
    {
        push_words(text, self.labels.numbers())?;
        push_flags(text, &self.first)?;
        push_flags(text, &self.second)
    }

    // Appends the labels, those of the bonds beside them, and the marks.
    pub(crate) fn push_with(&self, text: &mut Text, bonded: &NodeList) -> Result<(), Memory>
        ensures { IfOk result (λ _. text.new ≡ text.old ++ bonded_bytes self.now bonded.now) }
    {
        push_words(text, self.labels.numbers())?;
        push_words(text, bonded.numbers())?;
        push_flags(text, &self.first)?;
        push_flags(text, &self.second)
    }
}

impl Contraction {
    // A row that begins with the kept nodes, with room for so many bytes for each of them.
    fn row_start(&self, alloc: Global, each: usize) -> Result<Text, Memory>
        ensures row { IfOk result (λ t. t ≡ words self.now.kept) }
        ensures answers { IsContraction self.now }
    {
        bytes_from(alloc, self.kept.nodes(), each)
    }

    // Appends the gap view.
    fn push_gap(&self, text: &mut Text) -> Result<(), Memory>
        ensures { IfOk result (λ _. text.new ≡ text.old ++ gap_bytes self.now) }
    {
        self.gap.row().push_to(text)
    }

    // Appends the load view.
    fn push_load(&self, text: &mut Text) -> Result<(), Memory>
        ensures { IfOk result (λ _. text.new ≡ text.old ++ load_bytes self.now) }
    {
        self.load.row().push_with(text, self.bonded.labels())
    }

    /// The kept nodes and both views as bytes. Two such rows are equal exactly where the contractions
    /// keep the same nodes and both views are the same on them. Time and memory: the kept nodes, as
    /// for the other rows.
    pub fn row(&self, alloc: Global) -> Result<Text, Memory>
        ensures row { IfOk result (λ t. t ≡ whole_row self.now) }
        ensures tells { IfOk result (λ t. (other : Answers) → IsContraction other
            → (t ≡ whole_row other) ↔ (SameGap self.now other × SameLoad self.now other)) }
        ensures answers { IsContraction self.now }
    {
        let mut text = self.row_start(alloc, WHOLE_BYTES)?;
        self.push_gap(&mut text)?;
        self.push_load(&mut text)?;
        Ok(text)
    }

    /// The kept nodes and the gap view as bytes. Two such rows are equal exactly where the contractions
    /// keep the same nodes and the gap views are the same on them.
    pub fn gap_row(&self, alloc: Global) -> Result<Text, Memory>
        ensures row { IfOk result (λ t. t ≡ gap_row self.now) }
        ensures tells { IfOk result (λ t. (other : Answers) → IsContraction other
            → (t ≡ gap_row other) ↔ SameGap self.now other) }
        ensures answers { IsContraction self.now }
    {
        let mut text = self.row_start(alloc, GAP_BYTES)?;
        self.push_gap(&mut text)?;
        Ok(text)
    }

    /// The kept nodes and the load view as bytes. Two such rows are equal exactly where the
    /// contractions keep the same nodes and the load views are the same on them.
    pub fn load_row(&self, alloc: Global) -> Result<Text, Memory>
        ensures row { IfOk result (λ t. t ≡ load_row self.now) }
        ensures tells { IfOk result (λ t. (other : Answers) → IsContraction other
            → (t ≡ load_row other) ↔ SameLoad self.now other) }
        ensures answers { IsContraction self.now }
    {
        let mut text = self.row_start(alloc, LOAD_BYTES)?;
        self.push_load(&mut text)?;
        Ok(text)
    }

    /// The gap row of what `on_nodes` gives, in less time than that takes. So who has made such a value before finds it
    /// by its row, and makes it not again. Time and memory: the nodes.
    pub fn gap_row_on(&self, alloc: Global, nodes: &[u16]) -> Result<Text, Memory>
        ensures { IfOk result (λ t. t ≡ gap_row (renamed nodes.now self.now)) }
    {
        let mut text = bytes_from(alloc, nodes, GAP_BYTES)?;
        self.push_gap(&mut text)?;
        Ok(text)
    }

    /// The load row of what `on_nodes` gives, in less time than that takes.
    pub fn load_row_on(&self, alloc: Global, nodes: &[u16]) -> Result<Text, Memory>
        ensures { IfOk result (λ t. t ≡ load_row (renamed nodes.now self.now)) }
    {
        let mut text = bytes_from(alloc, nodes, LOAD_BYTES)?;
        self.push_load(&mut text)?;
        Ok(text)
    }
}
