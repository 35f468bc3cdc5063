//! Tests of `mf_view`, whose parts are reached through its calls, and of the crates that it uses alone.
#![tactic(auto)]

#[cfg(test)]
mod tests;
