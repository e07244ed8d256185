//! Tests of what runs in threads.
#![tactic(auto)]

#[cfg(test)]
mod counter;
#[cfg(test)]
mod lend_cases;
#[cfg(test)]
mod lock_cases;
#[cfg(test)]
mod script_cases;
#[cfg(test)]
mod storm_cases;
#[cfg(test)]
mod workers_cases;
