// The watchdog of a rule.
#![tactic(auto)]

pub mod ask;
pub mod put;
