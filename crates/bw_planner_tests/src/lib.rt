//! Tests of model, demand, split, pool and check with values that no script line and no certified
//! text reaches, and of the check over all small instances.
#![tactic(auto)]

#[cfg(test)]
mod certified_cases;
#[cfg(test)]
mod check_cases;
#[cfg(test)]
mod check_search;
#[cfg(test)]
mod demand_cases;
#[cfg(test)]
mod depth_cases;
#[cfg(test)]
mod model_cases;
#[cfg(test)]
mod pool_cases;
#[cfg(test)]
mod rows;
#[cfg(test)]
mod split_cases;
