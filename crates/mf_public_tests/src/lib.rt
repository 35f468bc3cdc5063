//! Tests that call the public calls of the libraries that callers need first, at the addresses that these use.
#![tactic(auto)]

#[cfg(test)]
mod tests;
