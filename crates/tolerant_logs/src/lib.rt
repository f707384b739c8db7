// Mathematics alone: a tolerant search of a store is that of the lifts that its paper log holds (document 02, W-209).
#![tactic(auto)]
