//! Tests of `mf_ops`.
#![tactic(auto)]

#[cfg(test)]
mod tests;
