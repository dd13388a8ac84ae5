// Runs the order's cases and limits through the public calls, and prints a line for each call: what was asked, the answer,
// and what the call left in the buffers and workspaces that it was lent.
#![tactic(auto)]

use std::io;

mod apart;
mod ask;
mod lent;
mod limits;
mod make;
mod marked;
mod numbers;
mod orders;
mod refusals;
mod report;
mod show;
mod undoing;
mod watching;
mod wrong;

fn limits_of_a_table(rt: &(impl Print + AllocGlobal)) -> io::Result<()> {
    numbers::headers(rt)?;
    numbers::moves(rt)?;
    numbers::lists(rt)?;
    numbers::tables(rt)?;
    numbers::long_table(rt)?;
    numbers::states(rt)
}

fn limits_of_a_check(rt: &(impl Print + AllocGlobal)) -> io::Result<()> {
    limits::pairs(rt)?;
    limits::trace_of_5(rt)?;
    limits::longest_trace(rt)?;
    limits::rule_states(rt)?;
    limits::rule_nodes(rt)?;
    limits::workspace_lengths(rt)
}

fn limits_of_a_builder(rt: &(impl Print + AllocGlobal)) -> io::Result<()> {
    limits::states_of_a_join(rt)?;
    limits::moves_of_a_join(rt)?;
    limits::joining_sets(rt)?;
    limits::events_of_a_watchdog(rt)?;
    limits::result_buffers(rt)
}

fn all_refusals(rt: &(impl Print + AllocGlobal)) -> io::Result<()> {
    refusals::of_tables(rt)?;
    refusals::framed(rt)?;
    refusals::modes(rt)?;
    refusals::events(rt)
}

fn all_orders(rt: &(impl Print + AllocGlobal)) -> io::Result<()> {
    orders::of_a_table(rt)?;
    orders::of_a_check(rt)?;
    orders::of_a_check_later(rt)?;
    orders::of_a_join(rt)?;
    orders::of_a_watchdog(rt)
}

fn main(rt: HostRuntime) -> io::Result<()> {
    marked::checks(&rt)?;
    marked::builders(&rt)?;
    limits_of_a_table(&rt)?;
    limits_of_a_check(&rt)?;
    limits_of_a_builder(&rt)?;
    all_refusals(&rt)?;
    all_orders(&rt)?;
    undoing::there_and_back(&rt)?;
    wrong::reasonable_errors(&rt)?;
    watching::beside_flows(&rt)?;
    apart::together(&rt)?;
    report::lines(&rt)
}
