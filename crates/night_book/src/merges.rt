// Merges and comparisons: what is written, and that the rest of the output stays.
use crate::make;
use crate::make::{compared, log};
use compare::compare;
use merge::merge;
use record::refusal::Refusal;
use std::io;

// What a call that writes answered.
fn answered(rt: &impl Print, name: &str, said: Result<usize, Refusal>) -> io::Result<()> {
    match said {
        Ok(n) => print!(rt; "{name}: bytes {n}"),
        Err(no) => print!(rt; "{name}: no {}", no.number()),
    }
}

// The number of blocks, then address and first content byte of each of three records, then the byte after them.
fn blocks(rt: &impl Print, out: &[u8; 1579]) -> io::Result<()> {
    print!(rt; " n {} blocks {}={}", out[20], out[26], out[30])?;
    print!(rt; " {}={} {}={}", out[544], out[548], out[1062], out[1066])?;
    println!(rt; " then {}", out[1578])
}

fn merged(rt: &impl Print, name: &str, first: &[u8], second: &[u8]) -> io::Result<()> {
    let mut out = [238; 1579];
    answered(rt, name, merge(first, second, &mut out))?;
    blocks(rt, &out)
}

pub fn merges(rt: &impl Print) -> io::Result<()> {
    let first = make::two(log(5, 9), [(1, 65), (3, 66)]);
    let second = make::two(log(9, 12), [(3, 67), (6, 68)]);
    merged(rt, "merge {1: A, 3: B} {3: C, 6: D}", &first, &second)?;
    let mut short = [238; 1577];
    let said = merge(&first, &second, &mut short);
    answered(rt, "the same with room for 1,577", said)?;
    println!(rt; " byte 0 {}", short[0])?;
    merged(rt, "merge the other way round", &second, &first)?;
    merged(rt, "merge with itself", &first, &first)
}

pub fn merge_edges(rt: &impl Print) -> io::Result<()> {
    for (name, first, second) in [
        (
            "merge of empty diffs",
            &make::empty(log(5, 9))[..],
            &make::empty(log(9, 12))[..],
        ),
        (
            "merge into an empty one",
            &make::empty(log(5, 9)),
            &make::one(log(9, 12), (7, 69)),
        ),
        (
            "merge of an empty one",
            &make::one(log(5, 9), (7, 69)),
            &make::empty(log(9, 12)),
        ),
        (
            "merge, all common",
            &make::two(log(5, 9), [(1, 65), (3, 66)]),
            &make::two(log(9, 12), [(1, 70), (3, 71)]),
        ),
        (
            "merge, back to the old content",
            &make::one(log(5, 9), (1, 65)),
            &make::one(log(9, 12), (1, 65)),
        ),
    ] {
        merged(rt, name, first, second)?;
    }
    Ok(())
}

pub fn merge_ends(rt: &impl Print) -> io::Result<()> {
    for (name, first, second) in [
        (
            "merge of the first and the last address",
            make::one(log(5, 9), (65_535, 65)),
            make::one(log(9, 12), (0, 66)),
        ),
        (
            "merge with a compared diff",
            make::one(log(5, 9), (1, 65)),
            make::one(compared(9, 12), (1, 66)),
        ),
        (
            "merge of a compared diff",
            make::one(compared(5, 9), (1, 65)),
            make::one(log(9, 12), (1, 66)),
        ),
        (
            "merge of diffs that overlap",
            make::one(log(5, 9), (1, 65)),
            make::one(log(8, 12), (1, 66)),
        ),
    ] {
        merged(rt, name, &first, &second)?;
    }
    Ok(())
}

pub fn compares(rt: &impl Print) -> io::Result<()> {
    let old = [1; 1536];
    for (name, p, q, x, y) in [
        ("compare, blocks 0 and 2 differ", 5, 9, 7, 9),
        ("compare, block 2 differs", 5, 9, 1, 9),
        ("compare, none differs", 5, 9, 1, 1),
        ("compare, p = q", 9, 9, 7, 9),
        ("compare, equal images and p = q", 9, 9, 1, 1),
    ] {
        let mut new = [1; 1536];
        new[0] = x;
        new[1024] = y;
        let mut out = [238; 1579];
        answered(rt, name, compare(&old, &new, p, q, &mut out))?;
        blocks(rt, &out)?;
    }
    Ok(())
}

// Small images, or such of unlike lengths, with room for a head alone.
pub fn odd_compares(rt: &impl Print) -> io::Result<()> {
    let a = [1; 512];
    let alike = [1; 512];
    for (name, old, new) in [
        ("compare 512 with 512 bytes alike", &a[..], &alike[..]),
        ("compare 512 with 512 bytes unlike", &a, &[2; 512]),
        ("compare 512 with 1,024 bytes", &a, &[1; 1024]),
        ("compare 511 with 511 bytes", &a[0..511], &alike[0..511]),
    ] {
        let mut out = [238; 24];
        answered(rt, name, compare(old, new, 5, 9, &mut out))?;
        println!(rt; " byte 0 {}", out[0])?;
    }
    Ok(())
}
