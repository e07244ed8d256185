//! Calls that allocate and that no script line and no certified text reaches. Values are small, so
//! that each allocation can be made to fail in turn. A refused call says so, changes nothing, and
//! succeeds when it is repeated. Allocations that a line or a text reaches are tested in the native
//! program.
#![tactic(auto)]

#[cfg(test)]
mod builder_cases;
#[cfg(test)]
mod core_cases;
#[cfg(test)]
mod figure_cases;
#[cfg(test)]
mod guarantee_cases;
#[cfg(test)]
mod hold_cases;
#[cfg(test)]
mod instances;
#[cfg(test)]
mod least_cases;
#[cfg(test)]
mod limits_cases;
#[cfg(test)]
mod name_cases;
#[cfg(test)]
mod reason_cases;
#[cfg(test)]
#[cfg(test)]
mod split_cases;
#[cfg(test)]
mod tune_cases;
