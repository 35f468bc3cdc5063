//! Tests of `mf_text` and `mf_text_show`.
#![tactic(auto)]

#[cfg(test)]
mod tests;
