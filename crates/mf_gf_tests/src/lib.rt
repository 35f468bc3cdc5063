//! Tests of `mf_gf`.
#![tactic(auto)]

#[cfg(test)]
mod tests;
