// The diff head: "57 44, kind (0 log, 1 compared), a zero byte, p (8), q (8), number of blocks n (4)".
ghost use Rattle.std.specs.Prelude.{◌≡◌, ◌≤◌, length};
ghost use Rattle.paper.specs.Diff.{head_of, head_bytes, is_compared, check_head, read_head};
ghost use Rattle.number.specs.Put.{put};
ghost use Rattle.record.specs.Heads.{head, said_head};

use crate::mark;
use crate::refusal::Refusal;
use number::Field;

// "A gid is at most 9,223,372,036,854,775,807."
pub const MAX_GID: u64 = 9_223_372_036_854_775_807;
// "n is at most 65,536"
pub const MAX_BLOCKS: u32 = 65_536;

// Every field that can be wrong. The kind is a number for that: 3 refuses a head of kind 2, and a shelf may hold one.
#[derive(Clone, Copy)]
pub struct Head {
    pub kind: u8,
    pub spare: u8,
    pub p: u64,
    pub q: u64,
    pub n: u32,
}

impl Head {
    pub const SIZE: usize = 24;

    // the second byte of its mark
    const MARK: u8 = 0x44;

    // "kind (0 log, 1 compared)"
    pub const LOG: u8 = 0;

    pub const COMPARED: u8 = 1;

    // The head that bytes open with.
    pub fn of(d: &[u8]) -> Head
        requires { 24 ≤ length d.now }
        ensures { head result ≡ head_of d.now }
    {
        Head {
            kind: d[2],
            spare: d[3],
            p: u64::read(d, 4),
            q: u64::read(d, 12),
            n: u32::read(d, 20),
        }
    }

    pub fn is_compared(self) -> bool
        ensures { result ≡ is_compared (head self) }
    {
        self.kind == Head::COMPARED
    }

    // The head rules, 3 and then 4.
    #[tactic(auto, using(crate::proofs::Checks::head_too_many))]
    pub fn check(self) -> Result<Head, Refusal>
        ensures { said_head result ≡ check_head (head self) }
    {
        if self.kind > Head::COMPARED {
            return Err(Refusal::BadHead);
        }
        if self.spare != 0 {
            return Err(Refusal::BadHead);
        }
        if self.p > MAX_GID {
            return Err(Refusal::BadHead);
        }
        if self.q > MAX_GID {
            return Err(Refusal::BadHead);
        }
        if self.p >= self.q {
            return Err(Refusal::BadHead);
        }
        if self.n > MAX_BLOCKS {
            return Err(Refusal::TooMany);
        }
        Ok(self)
    }

    // "under 24 bytes, mark, BadHead, TooMany"
    pub fn read(d: &[u8]) -> Result<Head, Refusal>
        ensures { said_head result ≡ read_head d.now }
    {
        if d.len() < Head::SIZE {
            return Err(Refusal::CutOff);
        }
        if !mark::opens(d, Head::MARK) {
            return Err(Refusal::BadMark);
        }
        Head::of(d).check()
    }

    // Its 24 bytes, put where `out` opens.
    pub fn write(self, out: &mut [u8])
        requires { 24 ≤ length out.old }
        ensures { out.new ≡ put 0 (head_bytes (head self)) out.old }
    {
        out[0] = mark::FIRST;
        out[1] = Head::MARK;
        out[2] = self.kind;
        out[3] = self.spare;
        self.p.write(out, 4);
        self.q.write(out, 12);
        self.n.write(out, 20);
    }
}
