//! What `compile`, `plan`, `program`, `tests` and `compare` write of a station, and of two.
use crate::drawings::THREE_LINES;
use crate::rows::expect;
use interlock_cli::Status;
use std::test::Fail;
use test_stations::{AS_A_TOOL_WRITES, FEEDERS_APART, TWO_FEEDERS};

// The equations of the line with an earthing switch and an infeed at one node: closing the earthing switch is
// denied where the infeed is on, and closing the infeed where the earthing switch is on.
const EQUATIONS: &str = "equations
switch 0 S/V1/Q1/QC9
switch 1 S/V1/Q1/E1
part 0 0
step 0 0 0 1 2
step 0 1 1 =0 =0
step 0 2 1 =0 =0
op 0 open ok
op 0 close 1
op 1 open ok
op 1 close 0
node 0 switch 0 ok R2
node 1 switch 1 ok R1
end
";

#[test]
fn equations(rt: HostRuntime) -> Result<(), Fail> {
    let alloc = rt.alloc();
    let line = AS_A_TOOL_WRITES.as_bytes();
    for (drawing, want) in [
        (line, EQUATIONS),
        (b"<SCL/>".as_slice(), "equations\nend\n"),
    ] {
        expect(
            &rt,
            alloc,
            "compile a.ssd",
            drawing,
            b"",
            (Status::Done, want.as_bytes(), ""),
        )?;
    }
    Ok(())
}

// Two feeders at one busbar can change each other's answers, each by one of eight ways to stand; at busbars of their
// own they cannot.
const PLAN: &str =
    "{\"bays\":[{\"bay\":1,\"partners\":[{\"bay\":2,\"bits\":8}],\"path\":\"S/V1/Q1\"},\
{\"bay\":2,\"partners\":[{\"bay\":1,\"bits\":8}],\"path\":\"S/V1/Q2\"}]}\n";

const PLAN_APART: &str = "{\"bays\":[{\"bay\":2,\"partners\":[],\"path\":\"S/V1/Q1\"},\
{\"bay\":3,\"partners\":[],\"path\":\"S/V1/Q2\"}]}\n";

#[test]
fn plans(rt: HostRuntime) -> Result<(), Fail> {
    let alloc = rt.alloc();
    for (drawing, want) in [(TWO_FEEDERS, PLAN), (FEEDERS_APART, PLAN_APART)] {
        expect(
            &rt,
            alloc,
            "plan a.ssd",
            drawing.as_bytes(),
            b"",
            (Status::Done, want.as_bytes(), ""),
        )?;
    }
    Ok(())
}

// The line with an earthing switch and an infeed at one node. With the infeed on, closing the earthing switch breaks
// R1; with the earthing switch closed, closing the infeed breaks R2. From the position in which both are open the move
// of either turns the closing of the other, so that two more positions, without moves, show the rules.
const TESTS: &str = "bay S/V1/Q1
always open S/V1/Q1/QC9
always open S/V1/Q1/E1
position 1
closed S/V1/Q1/QC9
denied R2 close S/V1/Q1/E1
closed S/V1/Q1/E1
denied R1 close S/V1/Q1/QC9
position 2
with S/V1/Q1/E1
denied R1 close S/V1/Q1/QC9
position 3
with S/V1/Q1/QC9
denied R2 close S/V1/Q1/E1
";

#[test]
fn tests_of_a_bay(rt: HostRuntime) -> Result<(), Fail> {
    expect(
        &rt,
        rt.alloc(),
        "tests a.ssd S/V1/Q1",
        AS_A_TOOL_WRITES.as_bytes(),
        b"",
        (Status::Done, TESTS.as_bytes(), ""),
    )
}

// Of three such lines the first two are like each other: exchanged, each switch of the one stands where that of the
// other stood. The third has its infeed first, so that it is not seen to be like them, and has tests of its own.
const ALL_TESTS: &str = "bay S/V1/Q1
like S/V1/Q2
always open S/V1/Q1/QC9
always open S/V1/Q1/E1
position 1
closed S/V1/Q1/QC9
denied R2 close S/V1/Q1/E1
closed S/V1/Q1/E1
denied R1 close S/V1/Q1/QC9
position 2
with S/V1/Q1/E1
denied R1 close S/V1/Q1/QC9
position 3
with S/V1/Q1/QC9
denied R2 close S/V1/Q1/E1
bay S/V1/Q3
always open S/V1/Q3/E1
always open S/V1/Q3/QC9
position 1
closed S/V1/Q3/E1
denied R1 close S/V1/Q3/QC9
closed S/V1/Q3/QC9
denied R2 close S/V1/Q3/E1
position 2
with S/V1/Q3/QC9
denied R2 close S/V1/Q3/E1
position 3
with S/V1/Q3/E1
denied R1 close S/V1/Q3/QC9
";

#[test]
fn tests_of_a_station(rt: HostRuntime) -> Result<(), Fail> {
    expect(
        &rt,
        rt.alloc(),
        "tests a.ssd",
        THREE_LINES.as_bytes(),
        b"",
        (Status::Done, ALL_TESTS.as_bytes(), ""),
    )
}

#[test]
fn tests_of_no_bay(rt: HostRuntime) -> Result<(), Fail> {
    expect(
        &rt,
        rt.alloc(),
        "tests a.ssd S/V1/Q2",
        AS_A_TOOL_WRITES.as_bytes(),
        b"",
        (
            Status::InputRefused,
            b"",
            "interlock: input refused 11 line 0\n",
        ),
    )
}

// The blocks of the same line. The earthing switch may be closed where the infeed is known to be off, and the infeed
// set on where the earthing switch is known to be off; opening is always released. All lines are for the releases of
// this bay, and no other bay is told anything.
const BLOCKS: &str = "(* from other bays 0 BOOLs, to other bays 0 *)

  (* S/V1/Q1: the releases *)
  (* from outside of the block 0 BOOLs, to the outside 0 *)
FUNCTION_BLOCK BLOCK_0
VAR_INPUT
  sw0_QC9_off, sw0_QC9_on, sw1_E1_off, sw1_E1_on : BOOL;
END_VAR
VAR_OUTPUT
  sw0_QC9_EnaOpn, sw0_QC9_EnaCls, sw1_E1_EnaOpn, sw1_E1_EnaCls : BOOL;
END_VAR
VAR
  m0, m1 : BOOL;
END_VAR
  m0 := sw0_QC9_on OR NOT sw0_QC9_off;
  m1 := sw1_E1_on OR NOT sw1_E1_off;
  sw0_QC9_EnaOpn := TRUE;
  sw0_QC9_EnaCls := NOT m1;
  sw1_E1_EnaOpn := TRUE;
  sw1_E1_EnaCls := NOT m0;
END_FUNCTION_BLOCK
";

#[test]
fn program_of_a_bay(rt: HostRuntime) -> Result<(), Fail> {
    expect(
        &rt,
        rt.alloc(),
        "program a.ssd S/V1/Q1",
        AS_A_TOOL_WRITES.as_bytes(),
        b"",
        (Status::Done, BLOCKS.as_bytes(), ""),
    )
}

#[test]
fn program_of_no_bay(rt: HostRuntime) -> Result<(), Fail> {
    expect(
        &rt,
        rt.alloc(),
        "program a.ssd S/V1/Q2",
        AS_A_TOOL_WRITES.as_bytes(),
        b"",
        (
            Status::InputRefused,
            b"",
            "interlock: input refused 11 line 0\n",
        ),
    )
}

// A station held against itself.
const SAME: &str = "same open S/V1/Q1/QC9
same close S/V1/Q1/QC9
same open S/V1/Q1/E1
same close S/V1/Q1/E1
bay same S/V1/Q1
";

// And an empty one held against it.
const GONE: &str = "gone open S/V1/Q1/QC9
gone close S/V1/Q1/QC9
gone open S/V1/Q1/E1
gone close S/V1/Q1/E1
bay gone S/V1/Q1
";

#[test]
fn comparisons(rt: HostRuntime) -> Result<(), Fail> {
    let alloc = rt.alloc();
    let line = AS_A_TOOL_WRITES.as_bytes();
    for (new, want) in [
        (line, (Status::Done, SAME)),
        (b"<SCL/>".as_slice(), (Status::Differs, GONE)),
    ] {
        let (status, text) = want;
        expect(
            &rt,
            alloc,
            "compare a.ssd a.csv",
            line,
            new,
            (status, text.as_bytes(), ""),
        )?;
    }
    Ok(())
}
