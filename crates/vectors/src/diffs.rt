// The check of a diff at its edges.
ghost use Rattle.std.specs.Prelude.{◌≡◌, ◌+◌, ◌*◌, ◌≤◌, length};

use crate::print::row;
use diff::check;
use record::block::Block;
use record::head::Head;
use std::io;

// "A gid is at most 9,223,372,036,854,775,807." The rows' own number, so that no bound of the library moves with them.
pub const LARGEST: u64 = 9_223_372_036_854_775_807;

// The head of a log diff from 5 to 9 without a record.
const LOG: Head = Head {
    kind: Head::LOG,
    spare: 0,
    p: 5,
    q: 9,
    n: 0,
};

// The same from p to q.
fn gids(p: u64, q: u64) -> Head {
    Head { p, q, ..LOG }
}

// Puts a head and the record of each address where `out` opens. `night_book` has a maker of its own: each program is read by itself, held to its own stored rows.
fn write_diff(h: Head, addresses: &[u32], out: &mut [u8])
    requires { 24 + 518 * length addresses.now ≤ length out.old }
{
    h.write(out);
    for (i, &address) in addresses.iter().enumerate() {
        let block = Block { address };
        block.write(&mut out[Head::SIZE + Block::SIZE * i..], &[7; 512]);
    }
}

// The diff that opens with a head and has a record at each address.
fn diff_of<const K: usize, const N: usize>(h: Head, addresses: [u32; K]) -> [u8; N]
    requires { N ≡ 24 + 518 * K }
{
    let mut out = [0u8; N];
    write_diff(h, &addresses, &mut out);
    out
}

fn head(h: Head) -> [u8; 24] {
    diff_of(h, [])
}

// One record; the second byte of its mark is `mark`, and the head says n.
fn one(n: u32, mark: u8, a: u32) -> [u8; 542] {
    let mut out = diff_of(Head { n, ..LOG }, [a]);
    out[25] = mark;
    out
}

fn two(a: u32, b: u32) -> [u8; 1060] {
    diff_of(Head { n: 2, ..LOG }, [a, b])
}

pub fn heads(rt: &impl Print) -> io::Result<()> {
    row(
        rt,
        "the 24-byte example",
        check(
            b"\x57\x44\x00\x00\x05\x00\x00\x00\x00\x00\x00\x00\x09\x00\x00\x00\x00\x00\x00\x00\x00\x00\x00\x00",
        ),
    )?;
    for (name, h) in [
        ("log 5 9 written", LOG),
        (
            "compared 5 9",
            Head {
                kind: Head::COMPARED,
                ..LOG
            },
        ),
        ("kind 2", Head { kind: 2, ..LOG }),
        ("kind 255", Head { kind: 255, ..LOG }),
        ("spare 1", Head { spare: 1, ..LOG }),
        ("p = q", gids(5, 5)),
        ("p > q", gids(9, 5)),
        ("q the largest gid", gids(5, LARGEST)),
        ("q 2^63", gids(5, LARGEST + 1)),
        ("p and q 2^63 and above", gids(LARGEST + 1, LARGEST + 2)),
        ("n 65,536 and no record", Head { n: 65_536, ..LOG }),
        ("n 65,537 and no record", Head { n: 65_537, ..LOG }),
        (
            "kind 2 and n 65,537",
            Head {
                kind: 2,
                n: 65_537,
                ..LOG
            },
        ),
        (
            "p = q and n 4,294,967,295",
            Head {
                n: 4_294_967_295,
                ..gids(5, 5)
            },
        ),
    ] {
        row(rt, name, check(&head(h)))?;
    }
    Ok(())
}

pub fn lengths(rt: &impl Print) -> io::Result<()> {
    let empty = head(LOG);
    let whole = one(1, 0x42, 3);
    let long = two(3, 4);
    for (name, d) in [
        ("no byte", &empty[0..0]),
        ("23 bytes", &empty[0..23]),
        ("24 bytes", &empty[..]),
        ("22 bytes without the mark", &empty[2..]),
        ("24 zero bytes", &[0; 24]),
        ("n 1 and 24 bytes", &whole[0..24]),
        ("n 1 and 541 bytes", &whole[0..541]),
        ("n 1 and 542 bytes", &whole),
        ("n 2 and 1,059 bytes", &long[0..1059]),
        ("n 2 and 1,060 bytes", &long),
        ("n 0 and 542 bytes", &one(0, 0x42, 3)),
        ("n 0, 542 bytes and a wrong mark", &one(0, 0x43, 3)),
    ] {
        row(rt, name, check(d))?;
    }
    Ok(())
}

pub fn records(rt: &impl Print) -> io::Result<()> {
    for (name, mark, a) in [
        ("a wrong block mark", 0x43, 3),
        ("a wrong block mark and address 65,536", 0x43, 65_536),
        ("address 0", 0x42, 0),
        ("address 65,535", 0x42, 65_535),
        ("address 65,536", 0x42, 65_536),
        ("address 4,294,967,295", 0x42, 4_294_967_295),
    ] {
        row(rt, name, check(&one(1, mark, a)))?;
    }
    for (name, a, b) in [
        ("addresses 3 and 4", 3, 4),
        ("addresses 3 and 3", 3, 3),
        ("addresses 4 and 3", 4, 3),
        ("addresses 0 and 65,535", 0, 65_535),
        ("addresses 65,535 and 65,536", 65_535, 65_536),
    ] {
        row(rt, name, check(&two(a, b)))?;
    }
    Ok(())
}
