//! The value that a row tells.
ghost use Rattle.std.specs.Prelude.{◌≡◌, ℕ, Bool, List, [], length, IfOk};
ghost use Rattle.station_graph.specs.Diagram.{Diagram};
ghost use Rattle.contraction.specs.Answers.{Answers, IsContraction};
ghost use Rattle.contraction.specs.Composing.{IsGapOfBoth, IsLoadOfBoth, IsGapRowOfBoth, IsLoadRowOfBoth};
ghost use Rattle.contraction.specs.Rows.{words, flags, gap_row, load_row, IsGapRow, IsLoadRow};
ghost use Rattle.contraction.specs.Stands.{Among, GapStandsFor, LoadStandsFor};

use crate::bytes::{GAP_BYTES, LOAD_BYTES};
use crate::empty_views::{EmptyViews, empty_views_on};
use crate::numbers::number_at;
use crate::row::Row;
use crate::shared_row::{SharedLabels, SharedRow};
use crate::value::Contraction;
use ilk_base::{Memory, NodeId, Text};
use station_graph::NodeList;
use std::alloc::Global;

// The labels of which these are the bytes.
fn labels_of(alloc: Global, bytes: &[u8]) -> Result<NodeList, Memory>
    ensures { IfOk result (λ l. (numbers : List ℕ) → bytes.now ≡ words numbers → l ≡ numbers) }
{
    let count = bytes.len() / 2;
    let mut labels = NodeList::with_capacity(alloc, count)?;
    for i in 0..count {
        labels.push(NodeId(number_at(bytes, i)))?;
    }
    Ok(labels)
}

// Reads the bits of which these are the bytes into a list that has room for them.
fn read_bits(bits: &mut [bool], bytes: &[u8])
    requires { length bits.old ≡ length bytes.now }
    ensures { (list : List Bool) → bytes.now ≡ flags list → bits.new ≡ list }
{
    for i in 0..bits.len() {
        bits[i] = bytes[i] == 1;
    }
}

// The bits of which these are the bytes.
fn bits_of(alloc: Global, bytes: &[u8]) -> Result<Vec<bool>, Memory>
    ensures { IfOk result (λ v. (bits : List Bool) → bytes.now ≡ flags bits → v.items ≡ bits) }
{
    let mut bits = vec![in alloc; false; bytes.len()]?;
    read_bits(&mut bits, bytes);
    Ok(bits)
}

impl Contraction {
    /// The value that this gap row tells: it has that row, and in the load view it is that of no item. So who has
    /// worked out a row makes its value without composing again. The kept nodes and the load view are those at hand
    /// where these nodes are the same, and then take no memory; the load view at hand also serves where the nodes are
    /// others, but as many. What the value holds of both is at hand afterwards.
    ///
    /// Time and memory: the row.
    pub fn of_gap_row(
        alloc: Global,
        row: &Text,
        held: &mut Option<EmptyViews>,
    ) -> Result<Contraction, Memory>
        requires row { IsGapRow row.now }
        ensures contraction { IfOk result IsContraction }
        ensures row { IfOk result (λ c. row.now ≡ gap_row c) }
        ensures bare { IfOk result (λ c. (d : Diagram) (v : List Bool) → LoadStandsFor (Among []) d v c) }
        ensures both { IfOk result (λ c. (nodes : List ℕ) (x y : Answers) → IsGapRowOfBoth nodes x y row.now
            → IsGapOfBoth nodes x y c) }
    {
        let bytes = row.bytes();
        let count = bytes.len() / GAP_BYTES;
        let empty = empty_views_on(alloc, held, &bytes[..2 * count])?;
        let labels = labels_of(alloc, &bytes[2 * count..4 * count])?;
        let first = bits_of(alloc, &bytes[4 * count..5 * count])?;
        let second = bits_of(alloc, &bytes[5 * count..6 * count])?;
        let row = Row {
            labels,
            first,
            second,
        };
        let gap = SharedRow::new(alloc, row)?;
        Ok(Contraction {
            kept: empty.kept,
            gap,
            load: empty.row,
            bonded: empty.bonded,
        })
    }

    /// The value that this load row tells: it has that row, and in the gap view it is that of no item. The kept nodes
    /// and the gap view at hand serve as for `of_gap_row`.
    ///
    /// Time and memory: the row.
    pub fn of_load_row(
        alloc: Global,
        row: &Text,
        held: &mut Option<EmptyViews>,
    ) -> Result<Contraction, Memory>
        requires row { IsLoadRow row.now }
        ensures contraction { IfOk result IsContraction }
        ensures row { IfOk result (λ c. row.now ≡ load_row c) }
        ensures bare { IfOk result (λ c. (d : Diagram) (v : List Bool) → GapStandsFor (Among []) d v c) }
        ensures both { IfOk result (λ c. (nodes : List ℕ) (x y : Answers) → IsLoadRowOfBoth nodes x y row.now
            → IsLoadOfBoth nodes x y c) }
    {
        let bytes = row.bytes();
        let count = bytes.len() / LOAD_BYTES;
        let empty = empty_views_on(alloc, held, &bytes[..2 * count])?;
        let labels = labels_of(alloc, &bytes[2 * count..4 * count])?;
        let bonds = labels_of(alloc, &bytes[4 * count..6 * count])?;
        let first = bits_of(alloc, &bytes[6 * count..7 * count])?;
        let second = bits_of(alloc, &bytes[7 * count..8 * count])?;
        let row = Row {
            labels,
            first,
            second,
        };
        let load = SharedRow::new(alloc, row)?;
        let bonded = SharedLabels::new(alloc, bonds)?;
        Ok(Contraction {
            kept: empty.kept,
            gap: empty.row,
            load,
            bonded,
        })
    }
}
