//! Tests of sessions, and of scripts from the bytes that are read to the bytes that are written.
#![tactic(auto)]

#[cfg(test)]
mod tests;
