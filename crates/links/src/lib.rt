// What an elimination costs: bare links, rule M's order, degrees and joins. (Definitions in specs/.)

#![tactic(auto)]
