// What a conversion looks for in the retained segments (document 02, W-203): in the headers of the closed ones, and in all lift times.
#![tactic(auto)]

pub mod headers;
pub mod times;
