// The PS/2 mouse, plain or with a wheel, as its published description has it.
#![tactic(auto)]

mod command;
mod counters;
pub mod mouse;
mod packet;
mod report;
pub mod settings;
