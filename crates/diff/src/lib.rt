// The check of a diff: any bytes may arrive.
#![tactic(auto)]

ghost use Rattle.std.specs.Prelude.{◌≡◌, IfOk};
ghost use Rattle.paper.specs.Diff.{check};
ghost use Rattle.record.specs.Heads.{said_head};
ghost use Rattle.diff.specs.Whole.{said_whole};

use record::block::Block;
use record::head::Head;
use record::records;
use record::records::Checked;
use record::refusal::Refusal;

// "under 24 bytes, mark, BadHead, TooMany, CutOff, Tail, then record after record, mark before address"
pub fn check(d: &[u8]) -> Result<Head, Refusal>
    ensures { said_head result ≡ check d.now }
{
    let h = Head::read(d)?;
    let n = h.n as usize;
    let size = Head::SIZE + Block::SIZE * n;
    if d.len() < size {
        return Err(Refusal::CutOff);
    }
    if d.len() > size {
        return Err(Refusal::Tail);
    }
    records::check_records(d, n)?;
    Ok(h)
}

// The diff itself, where it passes.
#[tactic(auto, using(crate::proofs::Answers::head_no))]
pub fn whole<'a>(d: &'a [u8]) -> Result<Checked<'a>, Refusal>
    ensures says { said_whole result ≡ check d.now }
    ensures kept { IfOk result (λ c. c.d ≡ d.entry) }
{
    let h = check(d)?;
    Ok(Checked { d, h })
}
