// Theorems over lists of calls about stores carried into the other form and back (document 02, W-203); no code.
#![tactic(auto)]
