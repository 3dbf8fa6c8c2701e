//! Which variables are read outside the section that sets them.
use crate::numbering::Counts;
use crate::read_names::names_of;
use ilk_base::Memory;
use std::alloc::Global;
use structured_text::{Line, Name, is_release};

// For each formula the section that sets it, once that is known, and whether another one reads it.
#[derive(Drop)]
pub(crate) struct Reads {
    may_set: Vec<Option<usize>>,
    sure_set: Vec<Option<usize>>,
    may_read: Vec<bool>,
    sure_read: Vec<bool>,
}

fn note_set(set: &mut Vec<Option<usize>>, number: usize, section: usize) {
    if number < set.len() {
        set[number] = Some(section);
    }
}

fn note_read(set: &[Option<usize>], read: &mut Vec<bool>, number: usize, section: usize) {
    if number < set.len() && number < read.len() && set[number] != Some(section) {
        read[number] = true;
    }
}

fn note_name(reads: &mut Reads, name: Name, section: usize) {
    match name {
        Name::May(number) => note_read(&reads.may_set, &mut reads.may_read, number, section),
        Name::Sure(number) => note_read(&reads.sure_set, &mut reads.sure_read, number, section),
        _ => {}
    }
}

fn note_line(alloc: Global, reads: &mut Reads, line: Line, section: usize) -> Result<(), Memory> {
    let names = names_of(alloc, line.formula)?;
    for name in &names {
        note_name(reads, *name, section);
    }
    match line.name {
        Name::May(number) => note_set(&mut reads.may_set, number, section),
        Name::Sure(number) => note_set(&mut reads.sure_set, number, section),
        _ => {}
    }
    Ok(())
}

fn no_reads(alloc: Global, counts: Counts) -> Result<Reads, Memory> {
    let may_set = vec![in alloc; None; counts.may]?;
    let sure_set = vec![in alloc; None; counts.sure]?;
    let may_read = vec![in alloc; false; counts.may]?;
    let sure_read = vec![in alloc; false; counts.sure]?;
    Ok(Reads {
        may_set,
        sure_set,
        may_read,
        sure_read,
    })
}

// The reads between sections. A section is known by the number of its first line.
pub(crate) fn reads_between(
    alloc: Global,
    lines: &[Line],
    counts: Counts,
) -> Result<Reads, Memory> {
    let mut reads = no_reads(alloc, counts)?;
    let mut section = 0;
    for number in 0..lines.len() {
        if lines[number].heading.is_some() {
            section = number;
        }
        note_line(alloc, &mut reads, lines[number], section)?;
    }
    Ok(reads)
}

// Whether the variable is a release, or read outside its section.
pub(crate) fn is_output(reads: &Reads, name: Name) -> bool {
    match name {
        Name::May(number) => reads.may_read.get(number).copied().unwrap_or(false),
        Name::Sure(number) => reads.sure_read.get(number).copied().unwrap_or(false),
        _ => is_release(name),
    }
}
