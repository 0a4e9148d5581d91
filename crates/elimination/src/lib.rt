// Figure 1: the operations that an elimination asks for. (Definitions in specs/.)

#![tactic(auto)]
