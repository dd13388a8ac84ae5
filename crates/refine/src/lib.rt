// The check of a flow against a rule, and what it answers.
#![tactic(auto)]

pub mod check;
pub mod early;
pub mod verdict;
