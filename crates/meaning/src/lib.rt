// What references, records and sheets mean under a setting, and that the answers are right. (Definitions in specs/, laws there and in proofs/.)

#![tactic(auto)]
