// Diffs made: a merge and a comparison.
ghost use Rattle.std.specs.Prelude.{◌≡◌, length};
ghost use Rattle.paper.specs.Merge.{merge};
ghost use Rattle.paper.specs.Compare.{compare};
ghost use Rattle.desk.specs.Rows.{wrote_row};

use crate::answers::hand_out;

#[unsafe(no_mangle)]
pub extern "C" fn minnow_merge(first: &[u8], second: &[u8], out: &mut [u8], size: &mut usize) -> u32
    ensures { (result, out.new, size.new) ≡ wrote_row out.old size.old (merge first.now second.now (length out.old)) }
{
    hand_out(merge::merge(first, second, out), size)
}

#[unsafe(no_mangle)]
pub extern "C" fn minnow_compare(
    old: &[u8],
    new: &[u8],
    p: u64,
    q: u64,
    out: &mut [u8],
    size: &mut usize,
) -> u32
    ensures { (result, out.new, size.new) ≡ wrote_row out.old size.old (compare old.now new.now p q (length out.old)) }
{
    hand_out(compare::compare(old, new, p, q, out), size)
}
