#![tactic(auto)]

// Theorems about traces of the storage subsystem: what holds after every step, what the closure adds, what is read back and refused.
