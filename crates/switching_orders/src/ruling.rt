//! What is said of an order.
use ilk_base::Rule;

/// The ruling on a step.
#[derive(Clone, Copy, PartialEq, Eq)]
pub enum Step {
    /// It breaks no rule.
    Ok,
    /// It breaks this rule, the first of those that it breaks.
    Denied(Rule),
    /// Its switch has the wanted position already.
    Idle,
}

/// The ruling on an order.
#[derive(Clone, Copy, PartialEq, Eq)]
pub struct Ruling {
    /// how many steps are ok, from the first on
    pub passed: u32,
    /// what stops the next step, never `Ok`; none where all steps are ok
    pub stopped: Option<Step>,
}
