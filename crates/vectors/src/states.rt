// State records and images at their edges.
ghost use Rattle.std.specs.Prelude.{◌<◌};

use crate::diffs::LARGEST;
use crate::print::row;
use record::image::check_image;
use record::state::{Kind, State};
use std::io;

// A record with any kind byte, and gids below 256.
fn small(kind: u8, b: u8, t: u8, e: u8) -> [u8; 28] {
    let mut out = [0u8; 28];
    out[0] = 0x57;
    out[1] = 0x53;
    out[2] = kind;
    out[4] = b;
    out[12] = t;
    out[20] = e;
    out
}

// The record of clean 7, with another byte at one place.
fn changed(at: usize, byte: u8) -> [u8; 28]
    requires { at < 28 }
{
    let mut r = small(0, 7, 7, 7);
    r[at] = byte;
    r
}

pub fn reading(rt: &impl Print) -> io::Result<()> {
    let r = small(0, 7, 7, 7);
    for (name, d) in [
        ("state clean 7", &r[..]),
        ("state of 27 bytes", &r[0..27]),
        ("state of no byte", &r[0..0]),
        ("state of 29 bytes", &[0; 29]),
        ("state with a diff's mark", &changed(1, 0x44)),
        ("state with a wrong first byte", &changed(0, 0x56)),
        ("state with spare 1", &changed(3, 1)),
        ("state with e 2^63 and more", &changed(27, 0x80)),
        ("state with e just below 2^63", &changed(27, 0x7f)),
        ("state with b 2^63 and more", &changed(11, 0x80)),
    ] {
        row(rt, name, State::read(d))?;
    }
    Ok(())
}

pub fn kinds(rt: &impl Print) -> io::Result<()> {
    for (name, kind, b, t, e) in [
        ("settled 4,4,10", 0, 4, 4, 10),
        ("settled 4,4,4", 0, 4, 4, 4),
        ("settled 4,4,3", 0, 4, 4, 3),
        ("settled 4,5,10", 0, 4, 5, 10),
        ("settled 4,3,10", 0, 4, 3, 10),
        ("span 4,8,10", 1, 4, 8, 10),
        ("span 4,8,8", 1, 4, 8, 8),
        ("span 4,8,7", 1, 4, 8, 7),
        ("span 4,4,10", 1, 4, 4, 10),
        ("span 4,5,10", 1, 4, 5, 10),
        ("pair 7,9,9", 2, 7, 9, 9),
        ("pair 7,9,10", 2, 7, 9, 10),
        ("pair 7,9,8", 2, 7, 9, 8),
        ("pair 7,7,7", 2, 7, 7, 7),
        ("kind 3", 3, 7, 9, 9),
        ("kind 255", 255, 7, 9, 9),
    ] {
        row(rt, name, State::read(&small(kind, b, t, e)))?;
    }
    Ok(())
}

// A span of any three gids.
fn span(b: u64, t: u64, e: u64) -> State {
    State {
        kind: Kind::Span,
        b,
        t,
        e,
    }
}

pub fn writing(rt: &impl Print) -> io::Result<()> {
    let mut long = [0; 29];
    let mut exact = [0; 28];
    let mut few = [0; 27];
    let clean = State::clean(7);
    row(rt, "write clean 7 into 29 bytes", clean.write(&mut long))?;
    row(rt, "read what was written", State::read(&long[0..28]))?;
    let pair = State::pair(7, 9);
    row(rt, "write pair 7,9,9 into 28 bytes", pair.write(&mut exact))?;
    row(rt, "read what was written", State::read(&exact))?;
    row(rt, "write clean 7 into 27 bytes", clean.write(&mut few))?;
    Ok(())
}

// States of every kind, some against its rules.
pub fn kinds_written(rt: &impl Print) -> io::Result<()> {
    let mut exact = [0; 28];
    let mut few = [0; 27];
    let bad = State::settled(9, 7);
    row(
        rt,
        "write settled 9,9,7 into 28 bytes",
        bad.write(&mut exact),
    )?;
    row(rt, "write settled 9,9,7 into 27 bytes", bad.write(&mut few))?;
    for (name, s) in [
        ("write span 4,8,10 into 28 bytes", span(4, 8, 10)),
        ("write span 8,8,10 into 28 bytes", span(8, 8, 10)),
        ("write clean 2^63 into 28 bytes", State::clean(LARGEST + 1)),
        ("write the largest clean state", State::clean(LARGEST)),
    ] {
        row(rt, name, s.write(&mut exact))?;
    }
    row(rt, "read what was written", State::read(&exact))?;
    Ok(())
}

pub fn images(rt: &impl Print) -> io::Result<()> {
    let two = [0; 1024];
    for (name, img) in [
        ("image of no byte", &two[0..0]),
        ("image of 511 bytes", &two[0..511]),
        ("image of 512 bytes", &two[0..512]),
        ("image of 513 bytes", &two[0..513]),
        ("image of 1,024 bytes", &two),
    ] {
        row(rt, name, check_image(img))?;
    }
    Ok(())
}
