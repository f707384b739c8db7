// What `random_calls` counts over its lists of calls, and what it prints.
#![tactic(auto)]

pub mod counts;
pub mod print;
