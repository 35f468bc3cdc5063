//! Tests of `mf_cli`.
#![tactic(auto)]

#[cfg(test)]
mod tests;
