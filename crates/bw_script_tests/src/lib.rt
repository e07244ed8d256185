//! Tests of trees, files, settings by path and counters that no script line reaches, and of the
//! shell over readers and writers that fail. Cases that a script line reaches are in tests/worked,
//! on which the native program runs. The lines for certified texts are there too.
#![tactic(auto)]

#[cfg(test)]
mod check_text_cases;
#[cfg(test)]
mod files_cases;
#[cfg(test)]
mod hierarchy_cases;
#[cfg(test)]
mod kept_cases;
#[cfg(test)]
mod stat_cases;
#[cfg(test)]
mod stream_cases;
#[cfg(test)]
mod streams;
#[cfg(test)]
mod text_cases;
#[cfg(test)]
mod tree_cases;
#[cfg(test)]
mod watched_cases;
