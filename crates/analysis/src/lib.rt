// The product: the analysis of a byte string with a given room. (Definitions in specs/.)

#![tactic(auto)]
