// What "joined to a live source" means. (Definitions in specs/.)

#![tactic(auto)]
