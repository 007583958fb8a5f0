// Worked cases, run as tests. Expected values come from the rules, never from the programs.
#![tactic(auto)]

#[cfg(test)]
mod controller_cases;
#[cfg(test)]
mod device_cases;
#[cfg(test)]
mod events;
#[cfg(test)]
mod exchange_cases;
#[cfg(test)]
mod lanes_cases;
#[cfg(test)]
mod mouse_cases;
#[cfg(test)]
mod session_cases;
pub mod silent;
