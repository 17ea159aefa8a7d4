// Doing an apply, whole or in runs.
ghost use Rattle.std.specs.Prelude.{◌≡◌};
ghost use Rattle.paper.specs.Answer.{comes_back, over};
ghost use Rattle.paper.specs.Volume.{apply, run};
ghost use Rattle.volume.specs.Decisions.{said_applied};
ghost use Rattle.volume.specs.Writes.{said_run};

use crate::decision::Done;
use crate::{decision, write};
use record::refusal::Refusal;

// "Doing writes every named block and gives Done." Nothing is written before every check has passed.
pub fn apply(d: &[u8], state: &[u8], img: &mut [u8]) -> Result<Done, Refusal>
    ensures answered { said_applied result ≡ comes_back (apply d.now state.now img.old) }
    ensures leaves { img.new ≡ over img.old (apply d.now state.now img.old) }
{
    let diff = diff::whole(d)?;
    let (_, done) = decision::decide_whole(diff, state, img)?;
    write::write_records(diff, 0, diff.count(), img);
    Ok(done)
}

// "A run checks diff, image, Outside, BadStart", "writes records i up to the smaller of i + k and n into the image and answers that smaller number".
// The sum is made only where it is at most n, so it does not wrap.
pub fn run(d: &[u8], img: &mut [u8], i: usize, k: usize) -> Result<usize, Refusal>
    ensures answered { said_run result ≡ comes_back (run d.now img.old i k) }
    ensures leaves { img.new ≡ over img.old (run d.now img.old i k) }
{
    let diff = diff::whole(d)?;
    let _blocks = diff.fits(img)?;
    let n = diff.count();
    if i > n {
        return Err(Refusal::BadStart);
    }
    let end = i + k.min(n - i);
    write::write_records(diff, i, end, img);
    Ok(end)
}
