#![tactic(auto)]

// Conditions in text: the grammar, the reader of a text and its faults, the truth for a case, the answers of the calls. Definitions stand in
// specs/, theorems in proofs/. There is no function here.
