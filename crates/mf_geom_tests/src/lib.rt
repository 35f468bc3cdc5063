//! Tests of `mf_geom`.
#![tactic(auto)]

#[cfg(test)]
mod tests;
