// 01, "Moves of a volume": a merge of two log diffs that touch.
#![tactic(auto)]

ghost use Rattle.std.specs.Prelude.{◌≡◌, ◌++◌, ◌+◌, ◌*◌, ◌≤◌, ◌<◌, length, drop};
ghost use Rattle.paper.specs.Answer.{comes_back, over};
ghost use Rattle.paper.specs.Diff.{rest, address_of, content_of, record_bytes, record_for, records_of, count_of};
ghost use Rattle.paper.specs.Merge.{merge_heads, merge};
ghost use Rattle.number.specs.Put.{put};
ghost use Rattle.record.specs.Heads.{head, said_head};
ghost use Rattle.record.specs.States.{said_length};
ghost use Rattle.merge.specs.Walks.{both, address_at, On, Walking, Begun, Turned};

use record::block::Block;
use record::head::Head;
use record::records::Checked;
use record::refusal::Refusal;

// "A merge checks first diff, second diff, 15, 16, 17." The result goes to `out`, and its length is answered.
// Nothing is written before every check has passed.
pub fn merge(first: &[u8], second: &[u8], out: &mut [u8]) -> Result<usize, Refusal>
    ensures answered { said_length result ≡ comes_back (merge first.now second.now (length out.old)) }
    ensures leaves { out.new ≡ over out.old (merge first.now second.now (length out.old)) }
{
    let first = diff::whole(first)?;
    let second = diff::whole(second)?;
    let pair = Pair { first, second };
    let h = pair.merge_heads()?;
    let n = pair.count_records();
    let size = Head::SIZE + Block::SIZE * n;
    if out.len() < size {
        return Err(Refusal::NoRoom);
    }
    Head { n: n as u32, ..h }.write(out);
    pair.write_records(n, out);
    Ok(size)
}

// One past the largest address: where a diff has no record left. It is above every address, so the lower of two is one `min`;
// an Option there would need an order of its own, None last.
const END: u32 = 65_536;

// A record of a diff, with its address; past the last record, with END.
#[derive(Clone, Copy)]
struct Cursor {
    place: usize,
    address: u32,
}

// The cursor at record i.
fn cursor_at(diff: Checked, i: usize) -> Cursor
    ensures { (result.place ≡ i) × (result.address ≡ address_at diff.entry i) }
{
    let address = if i < diff.count() {
        diff.address(i)
    } else {
        END
    };
    Cursor { place: i, address }
}

// The cursor past address `low`: the next record, if c stands at that address.
fn past(diff: Checked, c: Cursor, low: u32) -> Cursor
    requires { On diff low c × (low < 65536) }
    ensures { On diff.entry (low + 1) result }
{
    if c.address > low {
        c
    } else {
        cursor_at(diff, c.place + 1)
    }
}

// Puts record i, whole, where `out` opens.
fn put_record(diff: Checked, i: usize, out: &mut [u8])
    requires { (i < diff.h.n) × (518 ≤ length out.old) }
    ensures { out.new ≡ record_bytes (address_of (rest diff.entry.d.now i)) (content_of (rest diff.entry.d.now i)) ++ drop 518 out.old }
{
    number::copy::<{ Block::SIZE }>(out, diff.record(i));
}

// A cursor on each diff, and the lower of their addresses; END where both are past the last record. It holds no pair: the diffs stay while it moves,
// and `Walking` is said of both, so an invariant would have the pair copied at each turn.
#[derive(Clone, Copy)]
struct Walk {
    a: Cursor,
    b: Cursor,
    low: u32,
}

// Two diffs that passed the check.
#[derive(Clone, Copy)]
struct Pair<'a> {
    first: Checked<'a>,
    second: Checked<'a>,
}

impl<'a> Pair<'a> {
    // 15, then 16: the merge's head, but for its count.
    #[tactic(auto, unfolding(paper::specs::Merge::merge_heads))]
    fn merge_heads(self) -> Result<Head, Refusal>
        ensures { said_head result ≡ merge_heads (head self.entry.first.h) (head self.entry.second.h) }
    {
        if self.first.h.is_compared() {
            return Err(Refusal::Compared);
        }
        if self.second.h.is_compared() {
            return Err(Refusal::Compared);
        }
        if self.first.h.q != self.second.h.p {
            return Err(Refusal::Apart);
        }
        Ok(Head {
            kind: Head::LOG,
            spare: 0,
            p: self.first.h.p,
            q: self.second.h.q,
            n: 0,
        })
    }

    // The walk over both diffs, at its first address.
    fn begin(self) -> Walk
        ensures { Begun self.entry result }
    {
        let a = cursor_at(self.first, 0);
        let b = cursor_at(self.second, 0);
        Walk {
            a,
            b,
            low: a.address.min(b.address),
        }
    }

    // The walk past its address: where both diffs name it, both go on.
    fn turn(self, w: Walk) -> Walk
        requires { Walking self w × (w.low < 65536) }
        ensures { Turned self.entry w result }
    {
        let a = past(self.first, w.a, w.low);
        let b = past(self.second, w.b, w.low);
        Walk {
            a,
            b,
            low: a.address.min(b.address),
        }
    }

    // The number of blocks that either diff names.
    fn count_records(self) -> usize
        ensures { (result ≡ count_of (both self.entry) 0 65536) × (result ≤ 65536) }
    {
        let mut w = self.begin();
        let mut n: usize = 0; // the walk has no index: it ends where both diffs do
        while w.low < END {
            w = self.turn(w);
            n += 1;
        }
        n
    }

    // Puts the record of the walk's address where `out` opens: "the second diff's block where it names one, else the first's".
    fn put_lowest(self, w: Walk, out: &mut [u8])
        requires { Walking self w × (w.low < 65536) × (518 ≤ length out.old) }
        ensures { out.new ≡ record_for w.low (both self.entry w.low) ++ drop 518 out.old }
    {
        if w.b.address > w.low {
            put_record(self.first, w.a.place, out);
        } else {
            put_record(self.second, w.b.place, out);
        }
    }

    // Puts the n records of the merge after the head.
    fn write_records(self, n: usize, out: &mut [u8])
        requires counted { n ≡ count_of (both self) 0 65536 }
        requires room { 24 + 518 * n ≤ length out.old }
        ensures { out.new ≡ put 24 (records_of (both self.entry) 0 65536) out.old }
    {
        let mut w = self.begin();
        for i in 0..n {
            let at = Head::SIZE + Block::SIZE * i;
            self.put_lowest(w, &mut out[at..]);
            w = self.turn(w);
        }
    }
}
