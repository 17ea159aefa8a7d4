// 01, "Moves of a volume": a comparison of two images.
#![tactic(auto)]

ghost use Rattle.std.specs.Prelude.{◌≡◌, ◌+◌, ◌*◌, ◌≤◌, length};
ghost use Rattle.paper.specs.Answer.{comes_back, over};
ghost use Rattle.paper.specs.Diff.{records_of, count_of};
ghost use Rattle.paper.specs.Compare.{compare};
ghost use Rattle.number.specs.Put.{put};
ghost use Rattle.record.specs.Heads.{head};
ghost use Rattle.record.specs.States.{said_length};
ghost use Rattle.compare.specs.Marks.{compared, marked, Marks};

use record::block::Block;
use record::head::{Head, MAX_BLOCKS};
use record::image;
use record::refusal::Refusal;

// "A comparison checks 8, then 3 for its gids, then 17." The compared diff goes to `out`, and its length is answered.
// Nothing is written before it is known to have room.
pub fn compare(old: &[u8], new: &[u8], p: u64, q: u64, out: &mut [u8]) -> Result<usize, Refusal>
    ensures answered { said_length result ≡ comes_back (compare old.now new.now p q (length out.old)) }
    ensures leaves { out.new ≡ over out.old (compare old.now new.now p q (length out.old)) }
{
    image::check_image(old)?;
    let blocks = image::check_image(new)?;
    if old.len() != new.len() {
        return Err(Refusal::BadImage);
    }
    compared(p, q, 0).check()?;
    let mut marks = [false; MAX_BLOCKS as usize];
    let marks = &mut marks[..blocks];
    let count = mark(old, new, marks);
    let size = Head::SIZE + Block::SIZE * count;
    if out.len() < size {
        return Err(Refusal::NoRoom);
    }
    compared(p, q, count as u32).write(out);
    write_marked(new, marks, out);
    Ok(size)
}

// The head of a compared diff of n blocks from p to q.
fn compared(p: u64, q: u64, n: u32) -> Head
    ensures { head result ≡ compared p q n }
{
    Head {
        kind: Head::COMPARED,
        spare: 0,
        p,
        q,
        n,
    }
}

// Compares the blocks of two images once each, marks those that differ, and counts them.
fn mark(old: &[u8], new: &[u8], marks: &mut [bool]) -> usize
    requires { (length old.now ≡ 512 * length marks.old) × (length new.now ≡ 512 * length marks.old) }
    ensures { Marks old.now new.now (length marks.new) marks.new result }
{
    let mut count: usize = 0;
    for (a, mark) in marks.iter_mut().enumerate() {
        let at = Block::BYTES * a;
        *mark = !number::same_block(&old[at..], &new[at..]);
        if *mark {
            count += 1;
        }
    }
    count
}

// Writes the record of each marked block, with its content in `new`, one after another behind the head.
fn write_marked(new: &[u8], marks: &[bool], out: &mut [u8])
    requires whole { (length new.now ≡ 512 * length marks.now) × (length marks.now ≤ 65536) }
    requires room { 24 + 518 * count_of (marked marks.now new.now) 0 (length marks.now) ≤ length out.old }
    ensures { out.new ≡ put 24 (records_of (marked marks.now new.now) 0 (length marks.now)) out.old }
{
    let mut at = Head::SIZE; // a filter that counts what it lets through would give it too, and say it less plainly
    for (a, &mark) in marks.iter().enumerate() {
        if mark {
            let block = Block { address: a as u32 };
            block.write(&mut out[at..], &new[Block::BYTES * a..]);
            at += Block::SIZE;
        }
    }
}
