// The five devices behind a controller.
#![tactic(auto)]

pub mod bank;
pub mod five;
