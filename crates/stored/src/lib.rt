// A stored result as it is read back, and what it tells about the network. (Definitions in specs/, laws there and in proofs/.)

#![tactic(auto)]
