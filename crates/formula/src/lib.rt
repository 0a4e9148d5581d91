// What a formula is: records, how one is made, and what references are worth under a setting. (Definitions in specs/.)

#![tactic(auto)]
