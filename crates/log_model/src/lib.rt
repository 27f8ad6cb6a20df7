#![tactic(auto)]

// Logs of records: what a whole log gives, and what it gives in pieces. Definitions stand in specs/, theorems in proofs/. There is no
// function here.
