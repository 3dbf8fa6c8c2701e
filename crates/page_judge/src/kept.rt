//! What a desk keeps of a station.
use release_compile::GraphJudge;

/// A station with its judge. The station itself stays in memory for as long as the program runs.
#[derive(Drop)]
pub struct Kept {
    pub(crate) judge: GraphJudge<'static>,
}
