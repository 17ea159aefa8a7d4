// Plans of a restore over small shelves, and at the ends of a full one.
use crate::make;
use crate::make::{LARGEST, compared, head, log};
use plan::planning::plan_restore;
use plan::shelf::Shelf;
use record::head::Head;
use record::state::State;
use std::io;

// A shelf that opens with four entries, of which so many are counted.
fn shelf_of(entries: [Head; 4], count: usize) -> Shelf {
    let mut s = Shelf::empty();
    s.heads[..4].copy_from_slice(&entries);
    s.count = count;
    s
}

// One of which two entries are given.
fn opening(a: Head, b: Head, count: usize) -> Shelf {
    shelf_of([a, b, log(4, 6), log(6, 9)], count)
}

// "Shelf log 0→4, compared 4→9, log 4→6, log 6→9"
fn night() -> Shelf {
    opening(log(0, 4), compared(4, 9), 4)
}

// The same with a log diff in the place of the compared one, and some entries counted.
fn logs(count: usize) -> Shelf {
    opening(log(0, 4), log(4, 9), count)
}

// A shelf with the same entry at each of its 96 places.
fn full(h: Head, count: usize) -> Shelf {
    Shelf {
        heads: [h; 96],
        count,
    }
}

// The plan from a state to a target: its length, its first four places, and the count of the shelf that it keeps.
fn planned(rt: &impl Print, name: &str, on: Shelf, s: State, target: u64) -> io::Result<()> {
    let plan = plan_restore(on, &make::state(s), target);
    match plan.said {
        Ok(()) => print!(rt; "{name}: ")?,
        Err(no) => print!(rt; "{name}: no {} ", no.number())?,
    }
    let [a, b, c, d, ..] = plan.places;
    let kept = plan.shelf.count;
    println!(rt; "length {} places {a},{b},{c},{d} kept {kept}", plan.length)
}

pub fn rows(rt: &impl Print) -> io::Result<()> {
    for (name, s, target) in [
        ("clean 0 to 9", State::clean(0), 9),
        ("clean 5 to 9", State::clean(5), 9),
        ("dirty 0,0,5 to 9", State::settled(0, 5), 9),
        ("clean 0 to 5", State::clean(0), 5),
        ("clean 9 to 9", State::clean(9), 9),
        ("clean 9 to 4, behind", State::clean(9), 4),
        ("dirty 0,0,9 to 9, e at the target", State::settled(0, 9), 9),
        (
            "dirty 0,0,10 to 9, e beyond the target",
            State::settled(0, 10),
            9,
        ),
        (
            "pair 4,9,9 to 9, by its compared diff",
            State::pair(4, 9),
            9,
        ),
        ("pair 4,8,8 to 9", State::pair(4, 8), 9),
    ] {
        planned(rt, name, night(), s, target)?;
    }
    Ok(())
}

pub fn ends(rt: &impl Print) -> io::Result<()> {
    for (name, on, b, target) in [
        ("no entry, clean 7 to 7", logs(0), 7, 7),
        ("no entry, clean 0 to 9", logs(0), 0, 9),
        ("two places filled, one counted", logs(1), 0, 9),
        ("the same entry twice", shelf_of([log(0, 9); 4], 4), 0, 9),
        ("96 entries", full(log(0, 9), 96), 0, 9),
        ("97 entries", full(log(0, 9), 97), 0, 9),
        (
            "up to the largest gid",
            full(log(0, LARGEST), 96),
            0,
            LARGEST,
        ),
        ("target 2^63", full(log(0, 9), 96), 0, LARGEST + 1),
    ] {
        planned(rt, name, on, State::clean(b), target)?;
    }
    Ok(())
}

pub fn bad(rt: &impl Print) -> io::Result<()> {
    for (name, on, s) in [
        (
            "an entry of kind 2",
            opening(log(0, 4), head(2, 4, 9), 4),
            State::clean(0),
        ),
        (
            "a bad entry past the count",
            opening(log(0, 9), head(2, 4, 9), 1),
            State::clean(0),
        ),
        ("a state against its kind", night(), State::settled(9, 7)),
        (
            "97 entries and a state against its kind",
            full(log(0, 9), 97),
            State::settled(9, 7),
        ),
    ] {
        planned(rt, name, on, s, 9)?;
    }
    Ok(())
}
