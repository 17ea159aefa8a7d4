// The plan of a restore, over a shelf that crosses as its heads' bytes back to back with a count.
ghost use Rattle.std.specs.Prelude.{◌≡◌};
ghost use Rattle.paper.specs.Answer.{answer};
ghost use Rattle.plan.specs.Shelves.{shelf};
ghost use Rattle.desk.specs.Shelves.{read_shelf, said_shelf, Restores};

use plan::planning;
use plan::shelf::{PLACES, Shelf};
use record::head::Head;
use record::refusal::Refusal;

// "A plan checks 18, then each entry in shelf order .., then 7, 20, 19", and NoRoom last.
#[unsafe(no_mangle)]
pub extern "C" fn minnow_plan(
    heads: &[u8],
    count: usize,
    saved: &[u8],
    target: u64,
    places: &mut [usize],
    size: &mut usize,
) -> u32
    ensures { Restores heads.now count saved.now target places.old size.old result places.new size.new }
{
    match shelve(heads, count) {
        Err(r) => r.number(),
        Ok(on) => plan_on(heads, count, on, saved, target, places, size),
    }
}

// The first `count` heads of the bytes, each read as a diff's head is.
fn shelve(heads: &[u8], count: usize) -> Result<Shelf, Refusal>
    ensures { said_shelf result ≡ read_shelf heads.now count }
{
    if count > PLACES {
        return Err(Refusal::ShelfFull);
    }
    let mut on = Shelf::empty().heads;
    for i in 0..count {
        let at = Head::SIZE * i;
        on[i] = Head::read(&heads[at..])?;
    }
    Ok(Shelf { heads: on, count })
}

// The plan over a shelf that was read, laid out where `places` opens.
fn plan_on(
    heads: &[u8],
    count: usize,
    on: Shelf,
    saved: &[u8],
    target: u64,
    places: &mut [usize],
    size: &mut usize,
) -> u32
    requires { read_shelf heads.now count ≡ answer (shelf on) }
    ensures { Restores heads.now count saved.now target places.old size.old result places.new size.new }
{
    let plan = planning::plan_restore(on, saved, target);
    match plan.said {
        Err(r) => r.number(),
        Ok(()) => {
            if places.len() < PLACES {
                return Refusal::NoRoom.number();
            }
            places[..PLACES].copy_from_slice(&plan.places);
            *size = plan.length;
            0
        }
    }
}
