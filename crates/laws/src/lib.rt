// Laws on Booleans and lists that the toolchain's library lacks. (In specs/.)

#![tactic(auto)]
