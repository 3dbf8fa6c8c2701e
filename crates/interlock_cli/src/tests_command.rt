//! The command `tests`.
ghost use Rattle.std.specs.Prelude.{IfOk};
ghost use Rattle.central_rules.specs.Meaning.{IsBay};
ghost use Rattle.commissioning_tests.specs.Covering.{AreTestsOf};
ghost use Rattle.commissioning_tests.specs.Refusing.{AreNarrowTests, IsWideBay, IsNarrowBay, IsThatWideBay};
ghost use Rattle.tests_text.specs.TestsText.{IsStationTestsText, IsTestsText};
ghost use Rattle.interlock_cli.specs.TestsWrites.{TestsWrites};

use crate::answer::Answer;
use crate::end::{End, Outcome, Output};
use crate::loading::named_bay;
use crate::out_text::OutText;
use commissioning_tests::{BayTests, SharedTests, TestsRefusal, bay_tests, station_tests};
use ilk_base::{BayId, Memory, Shelf, Text};
use release_compile::GraphJudge;
use station_graph::Station;
use std::alloc::Global;
use tests_text::{station_tests_fit, station_tests_text, tests_fit, tests_text};

// The text of the tests of a bay, as it is written.
fn text_of(
    alloc: Global,
    station: &Station,
    bay: BayId,
    tests: &BayTests,
) -> Result<OutText, Memory>
    requires bay { IsBay station.now bay.0 }
    requires tests { AreTestsOf station.now bay.0 tests.now }
    requires narrow { IsNarrowBay station.now bay.0 }
    ensures { IfOk result (IsTestsText station.now bay.0) }
{
    // Its clause says that they fit the station; it does nothing.
    tests_fit();
    let lines = tests_text(alloc, station, bay, tests)?;
    let text = OutText::named(alloc, lines)?;
    Ok(text)
}

// What has to be written of a bay: nothing where a walk is too wide.
fn tests_output(alloc: Global, station: &Station, bay: BayId) -> Result<Output, Memory>
    requires bay { IsBay station.now bay.0 }
    ensures { IfOk result (λ o. TestsWrites (IsTestsText station.now bay.0) (IsThatWideBay station.now bay.0) o.outcome
        o.text) }
{
    match bay_tests(alloc, station, bay) {
        Ok(tests) => Ok(Output {
            outcome: Outcome::Done,
            text: text_of(alloc, station, bay, &tests)?,
        }),
        Err(TestsRefusal::Wide { bay }) => Ok(Output {
            outcome: Outcome::TooWide { bay },
            text: OutText::whole(Text::new(alloc)),
        }),
        Err(TestsRefusal::Memory) => Err(Memory),
    }
}

// `tests STATION BAY`
#[derive(Clone, Copy)]
pub(crate) struct Tests<'a> {
    pub bay: &'a str,
}

impl<'a> Answer for Tests<'a> {
    ghost use Rattle.std.specs.Prelude.{[]};
    ghost use Rattle.interlock_cli.specs.Rests.{tests_rest};

    ghost rest = { λ command. tests_rest command.bay.now };

    ghost names = { λ _. [] };

    #[tactic(auto, using(crate::proofs::Asked::reads_none))]
    fn answer<F: Shelf>(
        &self,
        alloc: Global,
        station: &Station,
        _judge: &GraphJudge<'_>,
        _shelf: &mut F,
    ) -> Result<Output, End> {
        let bay = named_bay(station, self.bay)?;
        let output = tests_output(alloc, station, bay)?;
        Ok(output)
    }
}

// The text of the tests of a station, as it is written.
fn all_text(alloc: Global, station: &Station, tests: &[SharedTests]) -> Result<OutText, Memory>
    requires { AreNarrowTests station.now tests.now }
    ensures { IfOk result (IsStationTestsText station.now) }
{
    // Its clause says that they fit the station; it does nothing.
    station_tests_fit();
    let lines = station_tests_text(alloc, station, tests)?;
    let text = OutText::named(alloc, lines)?;
    Ok(text)
}

// What has to be written of a station: nothing where a walk is too wide.
fn all_output(alloc: Global, station: &Station) -> Result<Output, Memory>
    ensures { IfOk result (λ o. TestsWrites (IsStationTestsText station.now) (IsWideBay station.now) o.outcome
        o.text) }
{
    match station_tests(alloc, station) {
        Ok(tests) => Ok(Output {
            outcome: Outcome::Done,
            text: all_text(alloc, station, &tests)?,
        }),
        Err(TestsRefusal::Wide { bay }) => Ok(Output {
            outcome: Outcome::TooWide { bay },
            text: OutText::whole(Text::new(alloc)),
        }),
        Err(TestsRefusal::Memory) => Err(Memory),
    }
}

// `tests STATION`
#[derive(Clone, Copy)]
pub(crate) struct StationTests;

impl Answer for StationTests {
    ghost use Rattle.std.specs.Prelude.{[]};
    ghost use Rattle.interlock_cli.specs.Rests.{station_tests_rest};

    ghost rest = { λ _. station_tests_rest };

    ghost names = { λ _. [] };

    #[tactic(auto, using(crate::proofs::Asked::reads_none))]
    fn answer<F: Shelf>(
        &self,
        alloc: Global,
        station: &Station,
        _judge: &GraphJudge<'_>,
        _shelf: &mut F,
    ) -> Result<Output, End> {
        let output = all_output(alloc, station)?;
        Ok(output)
    }
}
