//! The public calls of the libraries that callers need first: called once with ample memory, at the addresses that these use, with the
//! types of what goes in and what comes out written out. So a name that moves and a signature that changes are noticed here. What the calls do is tested in the
//! crates of tests of their own libraries.

mod assertions;
mod command_line;
mod cycles;
mod fonts;
mod laws;
mod lines;
mod live_pictures;
mod operations;
mod pictures;
mod scripts;
mod sessions;
