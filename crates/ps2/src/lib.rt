// The vocabulary that every layer shares: refusals, what a device gives and is told, and the trait.
#![tactic(auto)]

pub mod device;
pub mod entry;
pub mod event;
pub mod refusal;
