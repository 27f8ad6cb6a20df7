#![tactic(auto)]

// What holds of every reader and of every list of bytes written by fields, whatever the layout: theorems alone.
