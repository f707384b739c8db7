// Mathematics alone: which lift of one log is paired with which of another (document 02, W-208), on two lists.
#![tactic(auto)]
