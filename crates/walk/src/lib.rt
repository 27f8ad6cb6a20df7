// Rules for proofs that walk a function's MIR by hand, where a reference to a struct is lent on: theorems alone.
#![tactic(auto)]
