// Mathematics alone: an export of a store is the text of the lifts that its paper log holds, an import is the paper log's appends, and an export
// that is imported into a fresh store is exported again as the same bytes (document 02, W-211).
#![tactic(auto)]
