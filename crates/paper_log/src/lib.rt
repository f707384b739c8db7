// Mathematics alone: the paper log (document 01, "Paper log").
#![tactic(auto)]
