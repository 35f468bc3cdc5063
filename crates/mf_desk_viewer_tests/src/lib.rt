//! Tests of scripts that run beside viewers, each in a thread of its own.
#![tactic(auto)]

#[cfg(test)]
mod tests;
