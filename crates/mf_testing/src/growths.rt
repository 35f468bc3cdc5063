//! Marks the place in a test where its allocations are to be refused.
//!
//! A test that runs by itself has ample memory. `tests/refused_allocations.py` runs each test of a module `growths` with a library
//! that counts the allocations from `refuse_growths` to `grow_again`. It refuses the first of them, then the second, and so on,
//! each alone and then together with all later ones, until there are no more. The library recognises the places by
//! allocations of sizes that nothing else asks for.

use std::alloc::{AllocError, Global};

/// Allocating this number of bytes says that allocations are refused from here on. Allocating one byte more says that memory is
/// ample again.
const REFUSED_FROM_HERE: usize = 33_554_467;

/// Allocating so many bytes, and one more for each allocation that is allowed, says that all allocations after those are refused.
const ALLOWED: usize = 33_554_500;

/// From here on allocations are refused, where the test runs with the library.
pub fn refuse_growths(alloc: Global) {
    ask(alloc, REFUSED_FROM_HERE);
}

/// Like `refuse_growths`, for a call that allocates nothing where it is refused. It allocates a byte itself, so that the library
/// always has an allocation to refuse.
pub fn refuse_all_growths(alloc: Global) {
    refuse_growths(alloc);
    ask(alloc, 1);
}

/// From here on all allocations but the first ones are refused, where the test runs with the library: so many are allowed, at most 99.
/// These refusals are not counted.
pub fn allow_growths(alloc: Global, count: usize) {
    ask(alloc, ALLOWED + count.min(99));
}

/// From here on memory is ample again.
pub fn grow_again(alloc: Global) {
    ask(alloc, REFUSED_FROM_HERE + 1);
}

/// Allocates this number of bytes, and frees them.
fn ask(alloc: Global, size: usize) {
    let asked: Result<Vec<u8>, AllocError> = Vec::with_capacity(alloc, size);
    drop(asked);
}
