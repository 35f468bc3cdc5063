//! The numbers of looks that a gate is called with.
ghost use Rattle.std.specs.Prelude.{◌≤◌};

use super::flags::{Count, Flag};
use super::outcomes::share;
use super::{AMPLE, PUBLISHED};
use crate::tests::assertions::{assert_holds, assert_same};
use mf_desk::{Gate, perform};
use mf_testing::{Pieces, Sink};
use std::alloc::{AllocError, Global};
use std::process::Abort;
use std::sync::Wait;
use std::thread::Threads;

/// A gate that counts the looks of each viewer.
#[derive(Drop)]
struct CountsLooks {
    looks: Vec<Count>,
    /// Set if a look is not the next one of its viewer, or its viewer does not exist.
    strayed: Flag,
}

impl CountsLooks {
    /// Counts the looks of `viewers` viewers.
    fn of(alloc: Global, viewers: u32) -> Result<CountsLooks, AllocError> {
        let mut looks = Vec::new(alloc);
        for _ in 0..viewers {
            looks.push(Count::new())?;
        }
        Ok(CountsLooks {
            looks,
            strayed: Flag::new(),
        })
    }
}

impl Gate for CountsLooks {
    fn hold(&self, viewer: u32, look: u32) {
        match self.looks.get(viewer as usize) {
            Some(count) if count.add_one() == look as u64 => {}
            _ => self.strayed.set(),
        }
    }
}

/// Asserts that the gate is called once for each look of each viewer, in the order of that viewer's looks, and for no other look.
fn assert_called_once<R: Abort + Wait + Threads + AllocGlobal>(rt: &R, viewers: u32, looks: u32)
    requires { viewers ≤ 64 }
{
    let alloc = rt.alloc();
    let counts = CountsLooks::of(alloc, viewers).expect(rt, "there is room for counts");
    let gate = share(rt, counts);
    let mut reader = Pieces::whole(PUBLISHED.as_bytes());
    let mut writer = Sink::new(alloc);
    let result = perform(
        rt,
        alloc,
        &mut reader,
        &mut writer,
        &AMPLE,
        viewers,
        looks,
        &gate,
    );
    assert_holds(rt, result.is_ok(), "the script is performed to its end");
    assert_holds(rt, !gate.strayed.is_set(), "each look is the next one");
    for count in &gate.looks {
        assert_same(rt, count.get(), looks as u64, "looks");
    }
}

/// The last of these looks has the number 200,000.
#[test]
fn gate_is_called_once_for_each_of_200_001_looks(rt: HostRuntime) {
    assert_called_once(&rt, 2, 200_001);
}

#[test]
fn gate_is_called_once_for_each_look_of_64_viewers(rt: HostRuntime) {
    assert_called_once(&rt, 64, 3);
}

/// The gate is not called for the last look, which comes after the end of the script.
#[test]
fn gate_is_not_called_for_the_last_look(rt: HostRuntime) {
    assert_called_once(&rt, 2, 0);
}
