// The worked cases of the outline, proved about the definitions. (In specs/.)

#![tactic(auto)]
