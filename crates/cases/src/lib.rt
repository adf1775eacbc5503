#![tactic(auto)]

// Definitions and laws that every crate cites: the case of a test, and a machine that takes bytes and writes into lent room.
