// Mathematics alone: the pairs of two stores are those of all lifts that their paper logs hold (document 02, W-208).
#![tactic(auto)]
