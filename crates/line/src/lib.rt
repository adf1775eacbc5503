// Command lines: from bytes to a kept line, from a kept line to its shape (document 01, "Command lines").
#![tactic(auto)]

pub mod cut;
pub mod names;
pub mod shape;
