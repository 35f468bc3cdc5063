//! Calls whose allocations are refused, one after another. Each test asserts that a refused call leaves the file as it was, and
//! that the same call with ample memory then gives its value.

mod beginnings;
mod ends;
mod shipments;
