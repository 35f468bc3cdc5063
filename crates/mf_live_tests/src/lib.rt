//! Tests of `mf_live`.
#![tactic(auto)]

#[cfg(test)]
mod tests;
