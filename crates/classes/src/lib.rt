#![tactic(auto)]

// The class of a case: all its renumberings. Definitions stand in specs/, theorems in proofs/. There is no function here.
