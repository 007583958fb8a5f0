// What a controller keeps, part by part.
#![tactic(auto)]

pub mod dialog;
pub mod held;
pub mod lines;
pub mod output;
pub mod settings;
