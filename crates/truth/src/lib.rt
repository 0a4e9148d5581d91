// What an elimination answers, on any carrier: Theorem 4. (Definitions in specs/, laws there and in proofs/.)

#![tactic(auto)]
