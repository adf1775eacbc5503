// The commands that change settings, saved settings or the lock.
#![tactic(auto)]

pub mod set;
pub mod trade;
pub mod word;
