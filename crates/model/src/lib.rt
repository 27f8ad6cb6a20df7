#![tactic(auto)]

// What a reader must believe: the case, the model's rules, the record's layout, renumbering, the answers of every call.
// Definitions and computed claims alone.
