//! Structured texts worked by hand: of a bay with an earthing switch and an infeed at one node, of one with two
//! disconnectors in parallel, of one with a long name, and of bays that share a block.
use ilk_base::{BayId, Kind};
use program_text::{bay_program_text, program_text};
use station_graph::Station;
use std::alloc::Global;
use std::test::Fail;
use test_stations::{Drawing, Example, StationRow, built, row_holds, station_of};

// The earthing switch may be closed where the infeed is known to be off, and the infeed set on where the earthing switch
// is known to be off; opening is always released. That the node has a tap is read by no line, so no line says it;
// and all lines are for the releases of this one bay.
const LINES: &[u8] = b"\n\
    \x20 (* S/V1/Q1: the releases *)\n\
    \x20 (* from outside of the block 0 BOOLs, to the outside 0 *)\n\
    FUNCTION_BLOCK BLOCK_0\n\
    VAR_INPUT\n\
    \x20 sw0_QC9_off, sw0_QC9_on, sw1_E1_off, sw1_E1_on : BOOL;\n\
    END_VAR\n\
    VAR_OUTPUT\n\
    \x20 sw0_QC9_EnaOpn, sw0_QC9_EnaCls, sw1_E1_EnaOpn, sw1_E1_EnaCls : BOOL;\n\
    END_VAR\n\
    VAR\n\
    \x20 m0, m1 : BOOL;\n\
    END_VAR\n\
    \x20 m0 := sw0_QC9_on OR NOT sw0_QC9_off;\n\
    \x20 m1 := sw1_E1_on OR NOT sw1_E1_off;\n\
    \x20 sw0_QC9_EnaOpn := TRUE;\n\
    \x20 sw0_QC9_EnaCls := NOT m1;\n\
    \x20 sw1_E1_EnaOpn := TRUE;\n\
    \x20 sw1_E1_EnaCls := NOT m0;\n\
    END_FUNCTION_BLOCK\n\
    \n\
    PROGRAM INTERLOCKING\n\
    VAR_INPUT\n\
    \x20 sw0_QC9_off, sw0_QC9_on : BOOL; (* S/V1/Q1/QC9 *)\n\
    \x20 sw1_E1_off, sw1_E1_on : BOOL; (* S/V1/Q1/E1 *)\n\
    END_VAR\n\
    VAR_OUTPUT\n\
    \x20 sw0_QC9_EnaOpn, sw0_QC9_EnaCls : BOOL;\n\
    \x20 sw1_E1_EnaOpn, sw1_E1_EnaCls : BOOL;\n\
    END_VAR\n\
    VAR\n\
    \x20 b0 : BLOCK_0;\n\
    END_VAR\n\
    \n\
    \x20 (* S/V1/Q1: the releases *)\n\
    \x20 b0(sw0_QC9_off := sw0_QC9_off,\n\
    \x20   sw0_QC9_on := sw0_QC9_on,\n\
    \x20   sw1_E1_off := sw1_E1_off,\n\
    \x20   sw1_E1_on := sw1_E1_on);\n\
    \x20 sw0_QC9_EnaOpn := b0.sw0_QC9_EnaOpn;\n\
    \x20 sw0_QC9_EnaCls := b0.sw0_QC9_EnaCls;\n\
    \x20 sw1_E1_EnaOpn := b0.sw1_E1_EnaOpn;\n\
    \x20 sw1_E1_EnaCls := b0.sw1_E1_EnaCls;\n\
    END_PROGRAM\n";

// A busbar that an infeed feeds, and a node behind two disconnectors in parallel. Each of them carries the load that the
// other one bonds: so it may move unless the infeed may be on, and the other one may be closed but is not for certain. The
// third formula of what may be is that one of the disconnectors is closed; no release reads it, and in the block the fourth
// one is m2. No earth can meet what is
// live, so nothing else denies that they close.
const STUB: &[u8] = b"\n\
    \x20 (* S/V1/Q1: the releases *)\n\
    \x20 (* from outside of the block 0 BOOLs, to the outside 0 *)\n\
    FUNCTION_BLOCK BLOCK_0\n\
    VAR_INPUT\n\
    \x20 sw0_QB1_off, sw0_QB1_on, sw1_QB2_off, sw1_QB2_on,\n\
    \x20 sw2_E1_off, sw2_E1_on : BOOL;\n\
    END_VAR\n\
    VAR_OUTPUT\n\
    \x20 sw0_QB1_EnaOpn, sw0_QB1_EnaCls, sw1_QB2_EnaOpn, sw1_QB2_EnaCls,\n\
    \x20 sw2_E1_EnaOpn, sw2_E1_EnaCls : BOOL;\n\
    END_VAR\n\
    VAR\n\
    \x20 m0, m1, m2, c0,\n\
    \x20 c1 : BOOL;\n\
    END_VAR\n\
    \x20 m0 := sw0_QB1_on OR NOT sw0_QB1_off;\n\
    \x20 m1 := sw1_QB2_on OR NOT sw1_QB2_off;\n\
    \x20 m2 := sw2_E1_on OR NOT sw2_E1_off;\n\
    \x20 c0 := sw0_QB1_on AND NOT sw0_QB1_off;\n\
    \x20 c1 := sw1_QB2_on AND NOT sw1_QB2_off;\n\
    \x20 sw0_QB1_EnaOpn := NOT (m2 AND m1 AND NOT c1);\n\
    \x20 sw0_QB1_EnaCls := NOT (m2 AND m1 AND NOT c1);\n\
    \x20 sw1_QB2_EnaOpn := NOT (m2 AND m0 AND NOT c0);\n\
    \x20 sw1_QB2_EnaCls := NOT (m2 AND m0 AND NOT c0);\n\
    \x20 sw2_E1_EnaOpn := TRUE;\n\
    \x20 sw2_E1_EnaCls := TRUE;\n\
    END_FUNCTION_BLOCK\n\
    \n\
    PROGRAM INTERLOCKING\n\
    VAR_INPUT\n\
    \x20 sw0_QB1_off, sw0_QB1_on : BOOL; (* S/V1/Q1/QB1 *)\n\
    \x20 sw1_QB2_off, sw1_QB2_on : BOOL; (* S/V1/Q1/QB2 *)\n\
    \x20 sw2_E1_off, sw2_E1_on : BOOL; (* S/V1/Q1/E1 *)\n\
    END_VAR\n\
    VAR_OUTPUT\n\
    \x20 sw0_QB1_EnaOpn, sw0_QB1_EnaCls : BOOL;\n\
    \x20 sw1_QB2_EnaOpn, sw1_QB2_EnaCls : BOOL;\n\
    \x20 sw2_E1_EnaOpn, sw2_E1_EnaCls : BOOL;\n\
    END_VAR\n\
    VAR\n\
    \x20 b0 : BLOCK_0;\n\
    END_VAR\n\
    \n\
    \x20 (* S/V1/Q1: the releases *)\n\
    \x20 b0(sw0_QB1_off := sw0_QB1_off,\n\
    \x20   sw0_QB1_on := sw0_QB1_on,\n\
    \x20   sw1_QB2_off := sw1_QB2_off,\n\
    \x20   sw1_QB2_on := sw1_QB2_on,\n\
    \x20   sw2_E1_off := sw2_E1_off,\n\
    \x20   sw2_E1_on := sw2_E1_on);\n\
    \x20 sw0_QB1_EnaOpn := b0.sw0_QB1_EnaOpn;\n\
    \x20 sw0_QB1_EnaCls := b0.sw0_QB1_EnaCls;\n\
    \x20 sw1_QB2_EnaOpn := b0.sw1_QB2_EnaOpn;\n\
    \x20 sw1_QB2_EnaCls := b0.sw1_QB2_EnaCls;\n\
    \x20 sw2_E1_EnaOpn := b0.sw2_E1_EnaOpn;\n\
    \x20 sw2_E1_EnaCls := b0.sw2_E1_EnaCls;\n\
    END_PROGRAM\n";

// An earthing switch whose path has 92 characters: the first row of the comment has 80 of them, and the identifier the last
// 13. Nothing denies that it moves, so no formula is read: the block has neither inputs nor variables of its own, and no
// section of either.
static LONG: Drawing = Drawing {
    parts: &["S"],
    nodes: &["S/n"],
    switches: &[(
        "aaaaaaaaaaaaaaaaaaaaaaaaaaaaaaaaaaaaaaaaaaaaaaaaaaaaaaaaaaaaaaaaaaaaaaaaaaaaaaaaaaaaaaaaaa",
        Kind::Earthing,
        0,
        0,
        None,
    )],
    links: &[],
    taps: &[],
};

const LONG_LINES: &[u8] = b"\n\
    \x20 (* S: the releases *)\n\
    \x20 (* from outside of the block 0 BOOLs, to the outside 0 *)\n\
    FUNCTION_BLOCK BLOCK_0\n\
    VAR_OUTPUT\n\
    \x20 sw0_aaaaaaaaaaaaa_EnaOpn, sw0_aaaaaaaaaaaaa_EnaCls : BOOL;\n\
    END_VAR\n\
    \x20 sw0_aaaaaaaaaaaaa_EnaOpn := TRUE;\n\
    \x20 sw0_aaaaaaaaaaaaa_EnaCls := TRUE;\n\
    END_FUNCTION_BLOCK\n\
    \n\
    PROGRAM INTERLOCKING\n\
    VAR_INPUT\n\
    \x20 sw0_aaaaaaaaaaaaa_off, sw0_aaaaaaaaaaaaa_on : BOOL; (* S/aaaaaaaaaaaaaaaaaaaaaaaaaaaaaaaaaaaaaaaaaaaaaaaaaaaaaaaaaaaaaaaaaaaaaaaaaaaaaa\n\
    \x20    aaaaaaaaaaaa *)\n\
    END_VAR\n\
    VAR_OUTPUT\n\
    \x20 sw0_aaaaaaaaaaaaa_EnaOpn, sw0_aaaaaaaaaaaaa_EnaCls : BOOL;\n\
    END_VAR\n\
    VAR\n\
    \x20 b0 : BLOCK_0;\n\
    END_VAR\n\
    \n\
    \x20 (* S: the releases *)\n\
    \x20 b0();\n\
    \x20 sw0_aaaaaaaaaaaaa_EnaOpn := b0.sw0_aaaaaaaaaaaaa_EnaOpn;\n\
    \x20 sw0_aaaaaaaaaaaaa_EnaCls := b0.sw0_aaaaaaaaaaaaa_EnaCls;\n\
    END_PROGRAM\n";

// An earthing switch in each of two bays, and two in a third one. Nothing denies that they move. The first two bays share a
// block, which is in the names of the first of them; the third one has another.
static THREE_BAYS: Drawing = Drawing {
    parts: &["S/A", "S/B", "S/C"],
    nodes: &["S/A/n", "S/B/n", "S/C/n"],
    switches: &[
        ("QC1", Kind::Earthing, 0, 0, None),
        ("QC1", Kind::Earthing, 1, 1, None),
        ("QC1", Kind::Earthing, 2, 2, None),
        ("QC2", Kind::Earthing, 2, 2, None),
    ],
    links: &[],
    taps: &[],
};

const SHARED: &[u8] = b"(* from other bays 0 BOOLs, to other bays 0 *)\n\
    \n\
    \x20 (* S/A: the releases *)\n\
    \x20 (* from outside of the block 0 BOOLs, to the outside 0 *)\n\
    FUNCTION_BLOCK BLOCK_0\n\
    VAR_OUTPUT\n\
    \x20 sw0_QC1_EnaOpn, sw0_QC1_EnaCls : BOOL;\n\
    END_VAR\n\
    \x20 sw0_QC1_EnaOpn := TRUE;\n\
    \x20 sw0_QC1_EnaCls := TRUE;\n\
    END_FUNCTION_BLOCK\n";

const ITS_OWN: &[u8] = b"(* from other bays 0 BOOLs, to other bays 0 *)\n\
    \n\
    \x20 (* S/C: the releases *)\n\
    \x20 (* from outside of the block 0 BOOLs, to the outside 0 *)\n\
    FUNCTION_BLOCK BLOCK_1\n\
    VAR_OUTPUT\n\
    \x20 sw2_QC1_EnaOpn, sw2_QC1_EnaCls, sw3_QC2_EnaOpn, sw3_QC2_EnaCls : BOOL;\n\
    END_VAR\n\
    \x20 sw2_QC1_EnaOpn := TRUE;\n\
    \x20 sw2_QC1_EnaCls := TRUE;\n\
    \x20 sw3_QC2_EnaOpn := TRUE;\n\
    \x20 sw3_QC2_EnaCls := TRUE;\n\
    END_FUNCTION_BLOCK\n";

// An earthing switch in one bay, and an infeed in another, at one node. Each is told by the other whether that may be closed,
// and denies its closing then. Both have one position and one denial, so their blocks are the same but for the numbers.
static ONE_NODE: Drawing = Drawing {
    parts: &["S/A", "S/B"],
    nodes: &["S/A/n"],
    switches: &[
        ("QC1", Kind::Earthing, 0, 0, None),
        ("E1", Kind::Infeed, 1, 0, None),
    ],
    links: &[],
    taps: &[(1, 0)],
};

const TOLD: &[u8] = b"(* from other bays 1 BOOLs, to other bays 1 *)\n\
    \n\
    \x20 (* S/A: what it is to the other bays *)\n\
    \x20 (* from outside of the block 0 BOOLs, to the outside 1 *)\n\
    FUNCTION_BLOCK BLOCK_0\n\
    VAR_INPUT\n\
    \x20 sw0_QC1_off, sw0_QC1_on : BOOL;\n\
    END_VAR\n\
    VAR_OUTPUT\n\
    \x20 m0 : BOOL;\n\
    END_VAR\n\
    \x20 m0 := sw0_QC1_on OR NOT sw0_QC1_off;\n\
    END_FUNCTION_BLOCK\n\
    \n\
    \x20 (* S/A: the releases *)\n\
    \x20 (* from outside of the block 1 BOOLs, to the outside 0 *)\n\
    FUNCTION_BLOCK BLOCK_1\n\
    VAR_INPUT\n\
    \x20 m0 : BOOL := TRUE;\n\
    END_VAR\n\
    VAR_OUTPUT\n\
    \x20 sw0_QC1_EnaOpn, sw0_QC1_EnaCls : BOOL;\n\
    END_VAR\n\
    \x20 sw0_QC1_EnaOpn := TRUE;\n\
    \x20 sw0_QC1_EnaCls := NOT m0;\n\
    END_FUNCTION_BLOCK\n";

// Whether the text of the station's program ends with these lines.
fn ends_with(alloc: Global, station: &Station, lines: &[u8]) -> bool {
    match program_text(alloc, station) {
        Ok(text) => text.bytes().ends_with(lines),
        Err(_) => false,
    }
}

// Whether the bay's text is this one.
fn is_of_bay(alloc: Global, station: &Station, bay: u8, blocks: &[u8]) -> bool {
    match bay_program_text(alloc, station, BayId(bay)) {
        Ok(text) => text.bytes() == blocks,
        Err(_) => false,
    }
}

// The last lines of the program of the earthed line.
struct Ends {
    lines: &'static [u8],
}

impl StationRow for Ends {
    fn example(&self) -> Example {
        Example::EarthedLine
    }

    fn holds(&self, alloc: Global, station: &Station) -> bool {
        ends_with(alloc, station, self.lines)
    }
}

#[test]
fn programs(rt: HostRuntime) {
    assert!(rt; row_holds(rt.alloc(), &Ends { lines: LINES }));
}

#[test]
fn two_ways(rt: HostRuntime) -> Result<(), Fail> {
    let station = built(rt.alloc(), Example::BareStub)?;
    assert!(rt; ends_with(rt.alloc(), &station, STUB));
    Ok(())
}

#[test]
fn long_path(rt: HostRuntime) -> Result<(), Fail> {
    let station = station_of(rt.alloc(), &LONG)?;
    assert!(rt; ends_with(rt.alloc(), &station, LONG_LINES));
    Ok(())
}

#[test]
fn bays(rt: HostRuntime) -> Result<(), Fail> {
    let station = station_of(rt.alloc(), &THREE_BAYS)?;
    assert!(rt; is_of_bay(rt.alloc(), &station, 0, SHARED));
    assert!(rt; is_of_bay(rt.alloc(), &station, 1, SHARED));
    assert!(rt; is_of_bay(rt.alloc(), &station, 2, ITS_OWN));
    Ok(())
}

#[test]
fn told_by_another_bay(rt: HostRuntime) -> Result<(), Fail> {
    let station = station_of(rt.alloc(), &ONE_NODE)?;
    assert!(rt; is_of_bay(rt.alloc(), &station, 0, TOLD));
    assert!(rt; is_of_bay(rt.alloc(), &station, 1, TOLD));
    Ok(())
}
