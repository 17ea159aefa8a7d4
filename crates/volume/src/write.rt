// Records written into an image.
ghost use Rattle.std.specs.Prelude.{◌≡◌, ◌-◌};
ghost use Rattle.paper.specs.Image.{overlay};
ghost use Rattle.paper.specs.Diff.{named_by};
ghost use Rattle.record.specs.Heads.{head};
ghost use Rattle.volume.specs.Writes.{Writable};

use record::block::Block;
use record::records::Checked;

// Writes records i up to, not including, `end` of a diff into img. Each copy gets the part of the image that starts at its block.
pub(crate) fn write_records(diff: Checked, i: usize, end: usize, img: &mut [u8])
    requires { Writable diff.d.now (head diff.h) i end img.old }
    ensures { img.new ≡ overlay img.old (named_by diff.entry.d.now i (end - i)) }
{
    for j in i..end {
        let to = Block::BYTES * diff.address(j) as usize;
        number::copy::<{ Block::BYTES }>(&mut img[to..], diff.content(j));
    }
}
