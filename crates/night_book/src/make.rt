// Diffs and states for the rows.
ghost use Rattle.std.specs.Prelude.{◌≡◌, ◌+◌, ◌*◌, ◌≤◌, length};

use record::block::Block;
use record::head::Head;
use record::state::State;

// "A gid is at most 9,223,372,036,854,775,807." The rows' own number, so that no bound of the library moves with them.
pub const LARGEST: u64 = 9_223_372_036_854_775_807;

// A head of a kind, without a record.
pub fn head(kind: u8, p: u64, q: u64) -> Head {
    Head {
        kind,
        spare: 0,
        p,
        q,
        n: 0,
    }
}

pub fn log(p: u64, q: u64) -> Head {
    head(Head::LOG, p, q)
}

pub fn compared(p: u64, q: u64) -> Head {
    head(Head::COMPARED, p, q)
}

// `vectors` has a maker of its own: each program is read by itself, held to its own stored rows.
// Puts a head and the record of each block where `out` opens. A block is an address and the byte that its content is made of.
fn write_diff(h: Head, blocks: &[(u32, u8)], out: &mut [u8])
    requires { 24 + 518 * length blocks.now ≤ length out.old }
{
    h.write(out);
    for (i, &(address, byte)) in blocks.iter().enumerate() {
        let block = Block { address };
        block.write(&mut out[Head::SIZE + Block::SIZE * i..], &[byte; 512]);
    }
}

// The diff of some blocks, with a head that tells how many.
fn diff_of<const K: usize, const N: usize>(h: Head, blocks: [(u32, u8); K]) -> [u8; N]
    requires { (N ≡ 24 + 518 * K) × (K ≤ 65536) }
{
    let mut out = [0u8; N];
    let n = K as u32;
    write_diff(Head { n, ..h }, &blocks, &mut out);
    out
}

pub fn empty(h: Head) -> [u8; 24] {
    diff_of(h, [])
}

pub fn one(h: Head, block: (u32, u8)) -> [u8; 542] {
    diff_of(h, [block])
}

pub fn two(h: Head, blocks: [(u32, u8); 2]) -> [u8; 1060] {
    diff_of(h, blocks)
}

// A state's record.
pub fn state(s: State) -> [u8; 28] {
    let mut out = [0u8; 28];
    let _ = s.write(&mut out);
    out
}
