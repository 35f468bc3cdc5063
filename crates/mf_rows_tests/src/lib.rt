//! Tests of `mf_rows`.
#![tactic(auto)]

#[cfg(test)]
mod tests;
