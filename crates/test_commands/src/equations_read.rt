//! Texts that are read, and texts that are refused at a line. Each is written out by hand.
use equation_text::{EquationsFault, read_equations};
use station_graph::Station;
use std::alloc::Global;
use test_stations::{Example, StationRow, row_holds};
use text_lines::MOST_BYTES;

// The equations of a bay with an earthing switch and an infeed at one node.
const WHOLE: &[u8] =
    b"equations\nswitch 0 S/V1/Q1/QC9\nswitch 1 S/V1/Q1/E1\npart 0 =0\nop 0 open ok\nop 0 close 0\nop 1 open ok\n\
        op 1 close 1\nnode 0 switch 1 ok R1\nnode 1 switch 0 ok R2\nend\n";

// Texts for that station, and the line at which each is refused.
const REFUSED: &[(&[u8], u32)] = &[
    // nothing, and no such switch
    (b"", 1),
    (b"equations\nswitch 0 S/V1/Q1/QC8\n", 2),
    // the last line is missing, has no LF, or is not the last
    (
        b"equations\nswitch 0 S/V1/Q1/QC9\nswitch 1 S/V1/Q1/E1\npart 0 =0\nop 0 open ok\nop 0 close 0\nop 1 open ok\n\
            op 1 close 1\nnode 0 switch 1 ok R1\nnode 1 switch 0 ok R2\n",
        11,
    ),
    (
        b"equations\nswitch 0 S/V1/Q1/QC9\nswitch 1 S/V1/Q1/E1\npart 0 =0\nop 0 open ok\nop 0 close ok\nop 1 open ok\n\
            op 1 close ok\nend",
        9,
    ),
    (
        b"equations\nswitch 0 S/V1/Q1/QC9\nswitch 1 S/V1/Q1/E1\npart 0 =0\nop 0 open ok\nop 0 close ok\nop 1 open ok\n\
            op 1 close ok\nend\nend\n",
        10,
    ),
    // 0 is not greater than 1
    (
        b"equations\nswitch 0 S/V1/Q1/QC9\nswitch 1 S/V1/Q1/E1\npart 0 =0\nop 0 open ok\nop 0 close 0\nop 1 open ok\n\
            op 1 close 1\nnode 0 switch 1 ok R1\nnode 1 switch 0 0 R2\nend\n",
        10,
    ),
    // an index past 254, a number with a leading zero, a step that is not there
    (
        b"equations\nswitch 0 S/V1/Q1/QC9\nswitch 1 S/V1/Q1/E1\npart 0 =255\nop 0 open ok\nop 0 close ok\n\
            op 1 open ok\nop 1 close ok\nend\n",
        4,
    ),
    (
        b"equations\nswitch 0 S/V1/Q1/QC9\nswitch 1 S/V1/Q1/E1\npart 0 =00\nop 0 open ok\nop 0 close ok\nop 1 open ok\n\
            op 1 close ok\nend\n",
        4,
    ),
    (
        b"equations\nswitch 0 S/V1/Q1/QC9\nswitch 1 S/V1/Q1/E1\npart 0 0\nop 0 open ok\nop 0 close ok\nop 1 open ok\n\
            op 1 close ok\nend\n",
        4,
    ),
    // a step that leads to one that is not there, and a node that is not there
    (
        b"equations\nswitch 0 S/V1/Q1/QC9\nswitch 1 S/V1/Q1/E1\npart 0 0\nstep 0 0 0 =0 1\nop 0 open ok\n\
            op 0 close ok\nop 1 open ok\nop 1 close ok\nend\n",
        5,
    ),
    (
        b"equations\nswitch 0 S/V1/Q1/QC9\nswitch 1 S/V1/Q1/E1\npart 0 =0\nop 0 open ok\nop 0 close ok\nop 1 open ok\n\
            op 1 close 0\nend\n",
        8,
    ),
    // two goals for one index, and none
    (
        b"equations\nswitch 0 S/V1/Q1/QC9\nswitch 1 S/V1/Q1/E1\npart 0 =0\nop 0 open ok\nop 0 close ok\nop 1 open ok\n\
            op 1 close ok\nnode 0 part 0 ok ok\nend\n",
        9,
    ),
    (
        b"equations\nswitch 0 S/V1/Q1/QC9\nswitch 1 S/V1/Q1/E1\npart 0 =0\nop 0 open ok\nop 0 close ok\nop 1 open ok\n\
            op 1 close ok\nnode 0 part 0\nend\n",
        9,
    ),
    // a node that no line defines, before a line that cannot stand where it does
    (
        b"equations\nswitch 0 S/V1/Q1/QC9\nswitch 1 S/V1/Q1/E1\npart 0 =0\nop 0 open ok\nop 0 close 1\nop 1 open ok\n\
            op 1 close ok\nnode 0 switch 7 ok R1\nend\n",
        6,
    ),
    // the same node, defined by a line that cannot stand where it does, at the end of the text, or behind it
    (
        b"equations\nswitch 0 S/V1/Q1/QC9\nswitch 1 S/V1/Q1/E1\npart 0 =0\nop 0 open ok\nop 0 close 1\nop 1 open ok\n\
            op 1 close ok\nnode 0 switch 1 ok R1\nnode 1 switch 7 ok R1\nend\n",
        10,
    ),
    (
        b"equations\nswitch 0 S/V1/Q1/QC9\nswitch 1 S/V1/Q1/E1\npart 0 =0\nop 0 open ok\nop 0 close 1\nop 1 open ok\n\
            op 1 close ok\nnode 0 switch 1 ok R1\nnode 1 switch 0",
        10,
    ),
    (
        b"equations\nswitch 0 S/V1/Q1/QC9\nswitch 1 S/V1/Q1/E1\npart 0 =0\nop 0 open ok\nop 0 close 1\nop 1 open ok\n\
            op 1 close ok\nend\nnode 1 switch 0 ok R1\n",
        10,
    ),
    // a step that no line defines, in a text that ends too early; a step of another part and a node do not define it
    (
        b"equations\nswitch 0 S/V1/Q1/QC9\nswitch 1 S/V1/Q1/E1\npart 0 1\nstep 0 0 0 =0 =1\nop 0 open ok\n",
        4,
    ),
    (
        b"equations\nswitch 0 S/V1/Q1/QC9\nswitch 1 S/V1/Q1/E1\npart 0 1\nstep 0 0 0 =0 =1\nstep 1 1 0 =0 =1\n\
            node 1 switch 0 ok R1\n",
        4,
    ),
    (
        b"equations\nswitch 0 S/V1/Q1/QC9\nswitch 1 S/V1/Q1/E1\npart 0 1\nstep 0 0 0 =0 =1\nstep 0 1\n",
        4,
    ),
    (
        b"equations\nswitch 0 S/V1/Q1/QC9\nswitch 1 S/V1/Q1/E1\npart 0 1\nstep 0 0 0 =0 =1\nstep 0 1 5\n",
        6,
    ),
];

// Whether the text is refused at this line, or is read where there is none.
fn is_read(alloc: Global, station: &Station, text: &[u8], refused: Option<u32>) -> bool {
    if text.len() > MOST_BYTES {
        return false;
    }
    match read_equations(alloc, station, text) {
        Ok(_) => refused == None,
        Err(EquationsFault::Refused(refusal)) => {
            refusal.number == 10 && refused == Some(refusal.line)
        }
        Err(EquationsFault::Memory) => false,
    }
}

// A text that is read, and others that are refused.
struct Texts {
    whole: &'static [u8],
    refused: &'static [(&'static [u8], u32)],
}

impl StationRow for Texts {
    fn example(&self) -> Example {
        Example::EarthedLine
    }

    fn holds(&self, alloc: Global, station: &Station) -> bool {
        for (text, line) in self.refused {
            if !is_read(alloc, station, text, Some(*line)) {
                return false;
            }
        }
        is_read(alloc, station, self.whole, None)
    }
}

const TEXTS: Texts = Texts {
    whole: WHOLE,
    refused: REFUSED,
};

#[test]
fn texts_that_are_refused(rt: HostRuntime) {
    assert!(rt; row_holds(rt.alloc(), &TEXTS));
}
