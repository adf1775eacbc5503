#![tactic(auto)]

// The three demands, as theorems over the operations of `wire`: no code.
