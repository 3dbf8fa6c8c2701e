//! The text of blocks.
ghost use Rattle.std.specs.Prelude.{◌≡◌, ◌≢◌, ◌<◌, ◌↔◌, [], ◌∷◌, length, codes, IsTrue, IfOk, IfErr};
ghost use Rattle.text_lines.specs.Lines.{filled_left, line_count};
ghost use Rattle.operation_lines.specs.OperationLines.{NamesOperation};
ghost use Rattle.station_graph.specs.Diagram.{Diagram};
ghost use Rattle.equation_audit.specs.Equations.{HasFewOwn, OwnBelow, AreOfStation};
ghost use Rattle.equation_audit.specs.BlockLines.{HasBlock, HasHeadFault, HasBodyFault, InLine, BodyFaultAfter};
ghost use Rattle.equation_audit.specs.BlockLines.{AreBlocks, IsBlocksFault, IsEndPassed, IsRest, IsRestFault, GoesOn};
ghost use Rattle.ilk_base.specs.Inputs.{ForRefused};

use crate::block::{Block, Blocks};
use crate::condition::read_condition;
use crate::draft::{Draft, DraftFault};
use ilk_base::{FILE_BYTES, Op};
use operation_lines::read_operation;
use station_graph::Station;
use std::alloc::Global;
use text_lines::Lines;

/// Why a text gave no blocks.
pub use ilk_base::InputFault as BlocksFault;

// Whether the operation has a block.
fn has_block(blocks: &[Block], op: Op) -> bool
    ensures { IsTrue result ↔ HasBlock blocks.now op }
{
    for block in blocks {
        if block.is_of(op) {
            return true;
        }
    }
    false
}

// The operation of the block that the line begins.
fn read_head(
    station: &Station,
    blocks: &[Block],
    number: u32,
    line: &[u8],
) -> Result<Op, BlocksFault>
    ensures ok { IfOk result (NamesOperation station.now line.now) }
    ensures within { IfOk result (λ op. op.switch.0 < length station.now.switches) }
    ensures first { IfOk result (λ op. ¬ HasBlock blocks.now op) }
    ensures err { IfErr result (λ e. ForRefused e (InLine number (HasHeadFault station.now blocks.now line.now))) }
{
    let op = match read_operation(station, line) {
        Ok(op) => op,
        Err(fault) => return Err(BlocksFault::refused(fault.number(), number)),
    };
    if has_block(blocks, op) {
        return Err(BlocksFault::refused(4, number));
    }
    Ok(op)
}

// Whether the line ends a block.
fn is_end(line: &[u8]) -> bool
    ensures { IsTrue result ↔ (line.now ≡ codes "end") }
{
    line == b"end".as_slice()
}

// Whether the line is all of the body of a block that never releases.
fn is_never(draft: &Draft, line: &[u8]) -> bool
    ensures { IsTrue result ↔ ((draft.now ≡ [] ∷ []) × (line.now ≡ codes "never")) }
{
    draft.is_fresh() && line == b"never".as_slice()
}

// Passes the end of a block whose body is `never`.
fn pass_end(lines: &mut Lines) -> Result<(), BlocksFault>
    ensures ok { IfOk result (λ _. IsEndPassed (filled_left lines.old) (filled_left lines.new)) }
    ensures err { IfErr result (λ e. ForRefused e (λ r. (d : Diagram) → BodyFaultAfter d [] [] (filled_left lines.old)
        (line_count lines.old) r)) }
    ensures count { line_count lines.new ≡ line_count lines.old }
{
    let Some((number, line)) = lines.next_filled() else {
        return Err(BlocksFault::refused(10, lines.passed() + 1));
    };
    if !is_end(line) {
        return Err(BlocksFault::refused(10, number));
    }
    Ok(())
}

// The body with one more line, `or` or a condition.
fn with_line(
    alloc: Global,
    station: &Station,
    draft: Draft,
    number: u32,
    line: &[u8],
) -> Result<Draft, BlocksFault>
    requires own { OwnBelow (length station.now.switches) draft }
    requires some { draft ≢ [] }
    requires no_end { line.now ≢ codes "end" }
    requires no_never { ¬ ((draft ≡ [] ∷ []) × (line.now ≡ codes "never")) }
    ensures ok { IfOk result (λ d. GoesOn station.now line.now draft d) }
    ensures some { IfOk result (λ d. d ≢ []) }
    ensures own { IfOk result (λ d. OwnBelow (length station.now.switches) d) }
    ensures few { IfOk result (λ d. HasFewOwn d) }
    ensures err { IfErr result (λ e. ForRefused e (InLine number (HasBodyFault station.now draft line.now))) }
{
    if line == b"or".as_slice() {
        return Ok(draft.with_alternative(alloc)?);
    }
    let condition = match read_condition(station, line) {
        Ok(condition) => condition,
        Err(fault) => return Err(BlocksFault::refused(fault.number(), number)),
    };
    match draft.with_condition(condition) {
        Ok(more) => Ok(more),
        Err(DraftFault::Broad) => Err(BlocksFault::refused(13, number)),
        Err(DraftFault::Memory) => Err(BlocksFault::Memory),
    }
}

// The block of the operation: its body, and its end.
fn read_rest(
    alloc: Global,
    station: &Station,
    lines: &mut Lines,
    op: Op,
) -> Result<Block, BlocksFault>
    ensures ok { IfOk result (λ b. IsRest station.now (filled_left lines.old) (filled_left lines.new) b.alternatives) }
    ensures op { IfOk result (λ b. b.op ≡ op) }
    ensures own { IfOk result (λ b. OwnBelow (length station.now.switches) b.alternatives) }
    ensures few { IfOk result (λ b. HasFewOwn b.alternatives) }
    ensures err { IfErr result (λ e. ForRefused e (IsRestFault station.now (filled_left lines.old)
        (line_count lines.old))) }
    ensures count { line_count lines.new ≡ line_count lines.old }
{
    let mut draft = Draft::new(alloc);
    while let Some((number, line)) = lines.next_filled() {
        if is_end(line) {
            return Ok(draft.finish(op)?);
        }
        if is_never(&draft, line) {
            pass_end(lines)?;
            return Ok(Block::never(alloc, op));
        }
        draft = with_line(alloc, station, draft, number, line)?;
    }
    Err(BlocksFault::refused(10, lines.passed() + 1))
}

/// Reads blocks (docs/FORMATS.md): a line `open PATH` or `close PATH`, a body, and a line `end`. A body is the
/// line `never`, or alternatives with a line `or` between each two, each of any number of lines
/// `when on PATH` and `when off PATH`. Lines end with LF or CR LF, and the last may end with the text; empty
/// lines are passed over and counted. A text is refused at its first line with a fault, with the fault's
/// number and the line's, from 1. In one line the faults come in this order: 10 it may not stand there, or
/// is none of these lines (for a text that ends in a block, the line after the last); 2 no switch has its
/// path; 4 its operation has a block already; 13 its switch is one more than `MOST_OWN` in its block. 5, with
/// line 0 and before all others: more than 8,388,608 bytes.
///
/// Time: the bytes, and for each block those before it. Memory: the blocks.
pub fn read_blocks(alloc: Global, station: &Station, bytes: &[u8]) -> Result<Blocks, BlocksFault>
    ensures ok { IfOk result (AreBlocks station.now bytes.now) }
    ensures of_station { IfOk result (AreOfStation station.now) }
    ensures err { IfErr result (λ e. ForRefused e (IsBlocksFault station.now bytes.now)) }
{
    if bytes.len() > FILE_BYTES {
        return Err(BlocksFault::refused(5, 0));
    }
    let mut blocks = Vec::new(alloc);
    let mut lines = Lines::new(bytes);
    while let Some((number, line)) = lines.next_filled() {
        let op = read_head(station, &blocks, number, line)?;
        let block = read_rest(alloc, station, &mut lines, op)?;
        blocks.push(block)?;
    }
    Ok(Blocks { blocks })
}
