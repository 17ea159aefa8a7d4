// The block records of a diff: checked one after another, and looked up in a diff that passed.
ghost use Rattle.std.specs.Prelude.{◌≡◌, ◌+◌, ◌*◌, ◌≤◌, ◌<◌, length, take};
ghost use Rattle.paper.specs.Answer.{answer};
ghost use Rattle.paper.specs.Diff.{rest, address_of, content_of, check_records, check, seek, names_outside};
ghost use Rattle.record.specs.Heads.{head};
ghost use Rattle.record.specs.Images.{said_blocks};
ghost use Rattle.record.specs.Records.{said_records, said_found, fits};

use crate::block::Block;
use crate::head::Head;
use crate::image;
use crate::refusal::Refusal;

// "then record after record": the n records of d, which is as long as they ask; n is what the head says, and this call is public with it. Each reader gets the rest of the diff.
pub fn check_records(d: &[u8], n: usize) -> Result<(), Refusal>
    requires { (length d.now ≡ 24 + 518 * n) × (n ≤ 65536) }
    ensures { said_records result ≡ check_records d.now 0 n 0 }
{
    let mut low: u32 = 0;
    for i in 0..n {
        let at = Head::SIZE + Block::SIZE * i;
        low = Block::read(&d[at..], low)?.address + 1;
    }
    Ok(())
}

// The address of record i of any bytes that are long enough: it asks for less than `Checked::address`, and is as public.
pub fn address(d: &[u8], i: usize) -> u32
    requires { (24 + 518 * i + 518 ≤ length d.now) × (i < 65536) }
    ensures { result ≡ address_of (rest d.now i) }
{
    let at = Head::SIZE + Block::SIZE * i;
    Block::address_of(&d[at..])
}

// A diff that passed the check, and its head.
#[derive(Clone, Copy)]
pub struct Checked<'a> {
    pub d: &'a [u8],
    pub h: Head,
    pub ghost sound: { check d.now ≡ answer (head h) },
}

impl<'a> Checked<'a> {
    // How many records it has.
    pub fn count(self) -> usize
        ensures { result ≡ self.entry.h.n }
    {
        self.h.n as usize
    }

    // The address of record i.
    pub fn address(self, i: usize) -> u32
        requires { i < self.h.n }
        ensures { (result ≡ address_of (rest self.entry.d.now i)) × (result < 65536) }
    {
        address(self.d, i)
    }

    // Record i, whole: a part of the diff.
    pub fn record(self, i: usize) -> &'a [u8]
        requires { i < self.h.n }
        ensures { (result.now ≡ take 518 (rest self.entry.d.now i)) × (length result.now ≡ 518) }
    {
        let at = Head::SIZE + Block::SIZE * i;
        &self.d[at..at + Block::SIZE]
    }

    // The content of record i: a part of the diff.
    pub fn content(self, i: usize) -> &'a [u8]
        requires { i < self.h.n }
        ensures { (result.now ≡ content_of (rest self.entry.d.now i)) × (length result.now ≡ 512) }
    {
        let at = Head::SIZE + Block::SIZE * i + Block::CONTENT;
        &self.d[at..at + Block::BYTES]
    }

    // Whether it names a block that an image of m blocks hasn't. Addresses rise: the last record decides.
    pub fn names_outside(self, m: usize) -> bool
        ensures { result ≡ names_outside self.entry.d.now 0 self.entry.h.n m }
    {
        let n = self.count();
        if n == 0 {
            return false;
        }
        m <= self.address(n - 1) as usize
    }

    // The place of the record of block a, if one has it. A `for`: a closure for `find` would owe, in a clause of its own, that i is a record's.
    pub fn find(self, a: usize) -> Option<usize>
        ensures { said_found result ≡ seek self.entry.d.now a 0 self.entry.h.n }
    {
        for i in 0..self.count() {
            if self.address(i) as usize == a {
                return Some(i);
            }
        }
        None
    }

    // "8, then 9": the number of blocks of an image that has every block that is named.
    pub fn fits(self, img: &[u8]) -> Result<usize, Refusal>
        ensures { said_blocks result ≡ fits self.entry.d.now self.entry.h.n img.now }
    {
        let m = image::check_image(img)?;
        if self.names_outside(m) {
            return Err(Refusal::Outside);
        }
        Ok(m)
    }
}
