// Mathematics alone: in a store reached from a format, counts that every append and drop keep are a tally of the whole store (document 02,
// W-210).
#![tactic(auto)]
