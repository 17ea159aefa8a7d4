// Applies, runs and read-throughs on an image of three blocks.
use crate::make;
use crate::make::{compared, log};
use crate::print::Shown;
use record::state::State;
use std::io;
use volume::{doing, view};

// A diff of {0: 7, 2: 9}.
fn inside() -> [u8; 1060] {
    make::two(log(5, 9), [(0, 7), (2, 9)])
}

// A diff of {0: 7, 3: 9}: the image has no block 3.
fn outside() -> [u8; 1060] {
    make::two(log(5, 9), [(0, 7), (3, 9)])
}

// The first byte of each block.
fn firsts(rt: &impl Print, img: &[u8; 1536]) -> io::Result<()> {
    println!(rt; " blocks {},{},{}", img[0], img[512], img[1024])
}

// Applies d to an image of ones at a state.
fn applied(rt: &impl Print, name: &str, d: &[u8], s: State) -> io::Result<()> {
    let mut img = [1; 1536];
    match doing::apply(d, &make::state(s), &mut img) {
        Ok(done) => print!(rt; "{name}: done {}", Shown(done.state()))?,
        Err(no) => print!(rt; "{name}: {}", no.number())?,
    }
    firsts(rt, &img)
}

pub fn applies(rt: &impl Print) -> io::Result<()> {
    let clean = State::clean(7);
    let dirty = State::settled(4, 10);
    let d = make::one(log(4, 8), (1, 7));
    let c = make::one(compared(4, 8), (1, 7));
    let gap = make::one(log(8, 9), (1, 7));
    for (name, d, s) in [
        ("apply {0: 7, 2: 9}", &inside()[..], clean),
        ("apply {0: 7, 3: 9}, one outside", &outside(), clean),
        ("apply {1: 7} to a dirty volume", &d, dirty),
        ("apply compared {1: 7} to a dirty volume", &c, dirty),
        ("apply nothing", &make::empty(log(5, 9)), clean),
        ("apply a gap", &gap, clean),
    ] {
        applied(rt, name, d, s)?;
    }
    Ok(())
}

// Runs k records of d from record i on, into an image of ones.
fn ran(rt: &impl Print, name: &str, d: &[u8], i: usize, k: usize) -> io::Result<()> {
    let mut img = [1; 1536];
    match doing::run(d, &mut img, i, k) {
        Ok(n) => print!(rt; "{name}: next {n}")?,
        Err(no) => print!(rt; "{name}: {}", no.number())?,
    }
    firsts(rt, &img)
}

pub fn runs(rt: &impl Print) -> io::Result<()> {
    let d = inside();
    for (name, i, k) in [
        ("run 0 1", 0, 1),
        ("run 1 1", 1, 1),
        ("run 0 2", 0, 2),
        ("run 0 0", 0, 0),
        ("run 2 5", 2, 5),
        ("run 3 0", 3, 0),
        ("run 1 and all that can be asked", 1, usize::MAX),
        ("run from the largest number", usize::MAX, 1),
    ] {
        ran(rt, name, &d, i, k)?;
    }
    ran(rt, "run {0, 3}, one outside", &outside(), 0, 1)
}

// Reads block a through d, over an image of ones.
fn seen(rt: &impl Print, name: &str, d: &[u8], a: usize) -> io::Result<()> {
    let img = [1; 1536];
    let mut said = 0;
    let v = view::read_through(d, &img, a, &mut said);
    let size = v.len();
    match v {
        [first, ..] => println!(rt; "{name}: {said} bytes {size} first {first}"),
        [] => println!(rt; "{name}: {said} bytes {size}"),
    }
}

pub fn views(rt: &impl Print) -> io::Result<()> {
    let d = inside();
    for (name, a) in [
        ("block 0 through {0: 7, 2: 9}", 0),
        ("block 1 through {0: 7, 2: 9}", 1),
        ("block 2 through {0: 7, 2: 9}", 2),
        ("block 3 through {0: 7, 2: 9}", 3),
    ] {
        seen(rt, name, &d, a)?;
    }
    seen(rt, "block 0 through {0: 7, 3: 9}", &outside(), 0)?;
    seen(rt, "block 1 through a diff cut short", &d[0..1059], 1)
}
