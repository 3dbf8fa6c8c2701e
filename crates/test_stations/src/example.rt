//! The worked stations by name.
use crate::drawing::{Drawing, DrawingFault, station_of};
use crate::tables::{
    BARE_STUB, EARTHED_LINE, EIGHT_EARTHED, FEEDERS_APART, NOTHING, ONE_EARTHED, THIRTEEN_LINES,
    THREE_BAYS, TWO_BUSBARS, TWO_FEEDERS, TWO_TRANSFORMERS,
};
use station_graph::Station;
use std::alloc::Global;

/// Which of the worked stations. Tables of tests name them so, and do not hold them whole.
#[derive(Clone, Copy, PartialEq, Eq)]
pub enum Example {
    /// Nothing.
    Nothing,
    /// A bay with one earthing switch.
    OneEarthed,
    /// A bay with an earthing switch and an infeed at one node.
    EarthedLine,
    /// A bay with thirteen infeeds at one node.
    ThirteenLines,
    /// A busbar and two feeders.
    TwoFeeders,
    /// The same, and a third bay of one disconnector at the busbar.
    ThreeBays,
    /// Two busbars, each with a feeder of its own.
    FeedersApart,
    /// A fed busbar, and a stub on it by two disconnectors in parallel.
    BareStub,
    /// Two busbars of one voltage, each with a transformer to one busbar of another voltage.
    TwoTransformers,
    /// Two busbars, a coupler between them, and two feeders that stand at both.
    TwoBusbars,
    /// Two bays with an earthing switch at each of the same eight nodes.
    EightEarthed,
}

/// What is drawn of the station.
pub fn drawing_of(example: Example) -> &'static Drawing {
    match example {
        Example::Nothing => &NOTHING,
        Example::OneEarthed => &ONE_EARTHED,
        Example::EarthedLine => &EARTHED_LINE,
        Example::ThirteenLines => &THIRTEEN_LINES,
        Example::TwoFeeders => &TWO_FEEDERS,
        Example::ThreeBays => &THREE_BAYS,
        Example::FeedersApart => &FEEDERS_APART,
        Example::BareStub => &BARE_STUB,
        Example::TwoTransformers => &TWO_TRANSFORMERS,
        Example::TwoBusbars => &TWO_BUSBARS,
        Example::EightEarthed => &EIGHT_EARTHED,
    }
}

/// The station itself.
pub fn built(alloc: Global, example: Example) -> Result<Station, DrawingFault> {
    station_of(alloc, drawing_of(example))
}
