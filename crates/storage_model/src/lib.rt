#![tactic(auto)]

// Traces of the storage subsystem: source document 002, sections 4.2 and 4.3.
// Definitions in specs/, worked traces in proofs/.
