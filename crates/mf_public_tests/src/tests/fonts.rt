//! The calls of `mf_gf`.
use super::pictures;
use crate::tests::assertions::assert_same;
use mf_gf::{FontWords, GfBytes, GfFault, GfFile, WriteFault};
use std::alloc::Global;
use std::process::Abort;

/// The numbers of a font are all 0.
pub(crate) const NO_WORDS: FontWords = FontWords {
    ds: 0,
    cs: 0,
    hppp: 0,
    vppp: 0,
};

/// The name of a fault.
fn name_of(fault: GfFault) -> &'static str {
    match fault {
        GfFault::FileTooLong => "FileTooLong",
        GfFault::NoCharacters => "NoCharacters",
        GfFault::CommentTooLong => "CommentTooLong",
        GfFault::OutOfMemory => "OutOfMemory",
    }
}

/// A file without a comment.
fn make(rt: &impl Abort, alloc: Global) -> GfFile {
    let comment: &[u8] = b"";
    let max_bytes: u32 = 72;
    let made: Result<GfFile, GfFault> = GfFile::new(alloc, comment, max_bytes);
    made.expect(rt, "the preamble fits")
}

/// Ships the rectangle with code 65, an escapement of five pixels, and width 0.
fn ship(rt: &impl Abort, alloc: Global, file: &mut GfFile) {
    let (code, dx, width): (u8, i32, i32) = (65, 327680, 0);
    let shipped: Result<(), GfFault> = file.ship(code, dx, width, &pictures::rectangle(rt, alloc));
    shipped.expect(rt, "the character fits");
    let count: u32 = file.count();
    assert_same(rt, count, 1, "the number of characters");
}

/// The bytes of a finished file, written.
fn written(rt: &impl Abort, alloc: Global, bytes: &GfBytes) -> Vec<u8> {
    let mut writer: Vec<u8> = Vec::new(alloc);
    let done: Result<(), WriteFault> = bytes.write_to(&mut writer);
    let taken: Option<u128> = done.err().map(|WriteFault(count)| count);
    assert_same(rt, taken, None, "a fault of writing");
    writer
}

#[test]
fn makes_a_file(rt: HostRuntime) {
    let alloc = rt.alloc();
    let mut file = make(&rt, alloc);
    ship(&rt, alloc, &mut file);
    let finished: Result<GfBytes, (GfFile, GfFault)> = file.finish(NO_WORDS);
    match finished {
        Ok(bytes) => {
            let all: &[u8] = bytes.bytes();
            assert_same(&rt, all.len(), 72, "the number of bytes");
            assert_same(
                &rt,
                written(&rt, alloc, &bytes).as_slice(),
                all,
                "what is written",
            );
        }
        Err((_, fault)) => panic!(rt; "{}", name_of(fault)),
    }
}

#[test]
fn gives_a_file_back(rt: HostRuntime) {
    let Err((file, fault)) = make(&rt, rt.alloc()).finish(NO_WORDS) else {
        panic!(rt; "a file without characters is finished")
    };
    assert_same(
        &rt,
        (name_of(fault), file.count()),
        ("NoCharacters", 0),
        "no character",
    );
}
