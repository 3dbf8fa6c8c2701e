//! What is found of the operations of two stations.

use change_search::Shown;
use ilk_base::SwitchId;

/// For each rule a position of all switches that shows a change by it, where there is one.
#[derive(Drop)]
pub struct RuleChanges {
    /// by R1
    pub by_r1: Option<Shown>,
    /// by R2
    pub by_r2: Option<Shown>,
    /// by R3
    pub by_r3: Option<Shown>,
}

/// What changes for an operation that both stations have.
#[derive(Drop)]
pub struct OperationChanges {
    /// what the old station releases and the new one forbids by a rule
    pub stricter: RuleChanges,
    /// what the old one forbids by a rule and the new one releases
    pub looser: RuleChanges,
}

/// What changes for a switch that both stations have.
#[derive(Drop)]
pub struct SwitchChanges {
    /// its number in the old station
    pub old: SwitchId,
    /// what changes for opening it
    pub opening: OperationChanges,
    /// what changes for closing it
    pub closing: OperationChanges,
}

/// What is found of a switch of the new station.
#[derive(Drop)]
pub enum Found {
    /// the old one has it not
    OnlyNew,
    /// both have it
    InBoth(SwitchChanges),
}

/// The new station compared with the old one.
#[derive(Drop)]
pub struct Comparison {
    /// for each switch of the new station what is found of it
    pub here: Vec<Found>,
    /// for each switch of the old station whether the new one has it not
    pub gone: Vec<bool>,
}
