#![tactic(auto)]

// Tests over the numbers below a bound, as specifications state them, and their laws: definitions and theorems alone.
