// A keyboard controller with four AUX ports, after Active PS/2 Multiplexing 1.1.
#![tactic(auto)]

pub mod calls;
pub mod chip;
