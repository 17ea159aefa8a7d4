// The rows P1 to P12, and the lag.
use crate::make;
use crate::make::{LARGEST, compared, log};
use crate::print::Shown;
use record::head::Head;
use record::state::State;
use std::io;
use volume::decision::decide;
use volume::lag::lag;

// What is decided of an empty diff at a state.
fn decided(rt: &impl Print, name: &str, s: State, h: Head) -> io::Result<()> {
    match decide(&make::empty(h), &make::state(s), &[0; 512]) {
        Ok((w, d)) => {
            let (during, after) = (Shown(w.state()), Shown(d.state()));
            println!(rt; "{name}: while {during}, done {after}")
        }
        Err(no) => println!(rt; "{name}: {}", no.number()),
    }
}

pub fn rows(rt: &impl Print) -> io::Result<()> {
    let clean = State::clean(7);
    let dirty = State::settled(4, 10);
    let pair = State::pair(7, 9);
    for (name, s, h) in [
        ("P1 clean 7, log 5 9", clean, log(5, 9)),
        ("P2 clean 7, log 8 9", clean, log(8, 9)),
        ("P3 clean 7, log 3 7", clean, log(3, 7)),
        ("P4 clean 7, compared 7 9", clean, compared(7, 9)),
        ("P5 clean 7, compared 5 9", clean, compared(5, 9)),
        ("P6 clean 7, compared 5 7", clean, compared(5, 7)),
        ("P7 dirty 4,4,10, log 4 8", dirty, log(4, 8)),
        ("P8 dirty 4,4,10, log 2 10", dirty, log(2, 10)),
        ("P9 pair 7,9,9, log 5 8", pair, log(5, 8)),
        ("P10 pair 7,12,12, log 8 10", State::pair(7, 12), log(8, 10)),
        ("P11 pair 7,9,9, compared 7 10", pair, compared(7, 10)),
        ("P12 pair 7,9,9, log 7 9", pair, log(7, 9)),
        ("pair 7,9,9, compared 7 9", pair, compared(7, 9)),
        ("pair 7,9,9, compared 6 9", pair, compared(6, 9)),
        ("dirty 4,4,10, compared 4 10", dirty, compared(4, 10)),
        ("dirty 4,4,10, log 4 11", dirty, log(4, 11)),
    ] {
        decided(rt, name, s, h)?;
    }
    let whole = log(0, LARGEST);
    decided(rt, "clean 0, log 0 largest", State::clean(0), whole)?;
    decided(
        rt,
        "clean largest, log 0 largest",
        State::clean(LARGEST),
        whole,
    )
}

// Whether the lag of a clean volume is what is wanted.
fn lagged(rt: &impl Print, name: &str, b: u64, target: u64, wanted: i64) -> io::Result<()> {
    match lag(&make::state(State::clean(b)), target) {
        Ok(n) if n == wanted => println!(rt; "{name}: yes"),
        Ok(_) => println!(rt; "{name}: no"),
        Err(no) => println!(rt; "{name}: refused {}", no.number()),
    }
}

pub fn lags(rt: &impl Print) -> io::Result<()> {
    for (name, b, target, wanted) in [
        ("lag at clean 7 for 9 is -2", 7, 9, -2),
        ("lag at clean 7 for 9 is 2", 7, 9, 2),
        ("lag at clean 9 for 7 is 2", 9, 7, 2),
        ("lag at clean 7 for 7 is 0", 7, 7, 0),
        (
            "lag at 0 for the largest is the largest below zero",
            0,
            LARGEST,
            -i64::MAX,
        ),
        (
            "lag at the largest for 0 is the largest",
            LARGEST,
            0,
            i64::MAX,
        ),
        ("lag for 2^63", 7, LARGEST + 1, 0),
    ] {
        lagged(rt, name, b, target, wanted)?;
    }
    Ok(())
}
