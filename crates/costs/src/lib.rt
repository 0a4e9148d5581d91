// What an elimination costs: the closed form, the bound for every order, and networks built one terminal at a time. (Definitions in specs/, laws there and in proofs/.)

#![tactic(auto)]
