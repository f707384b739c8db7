// Mathematics alone: the store answers every list of calls as the paper log does (document 01, "Paper log").
#![tactic(auto)]
