// Fitted orbits, window by window (document 01, module 4).
#![tactic(auto)]

pub mod kernel;
