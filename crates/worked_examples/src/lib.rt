// The worked examples of document 01 ("What the contracts settle"), as one theorem over the definitions that the contracts cite, and
// tables of our own as another: rules, bytes and limits that definition and code share, which no other theorem guards.
#![tactic(auto)]
