//! The program, and the reading of its words, while allocations are refused.

mod programs;
mod words;
