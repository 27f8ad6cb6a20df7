#![tactic(auto)]

// An area of records that survives a cut: what is found in it, what an append and a repair store. Definitions stand in specs/, theorems in
// proofs/. There is no function here.
