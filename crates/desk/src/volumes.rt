// Moves of a volume: decide, apply, run, read-through, lag.
ghost use Rattle.std.specs.Prelude.{◌≡◌, length};
ghost use Rattle.paper.specs.Answer.{refuse};
ghost use Rattle.paper.specs.Volume.{run, read_through, lag};
ghost use Rattle.desk.specs.Rows.{wrote_row, decide_records, further_row, apply_record, applied_row, view_row, lag_row};

use crate::answers::hand_out;
use record::refusal::Refusal;
use record::state::State;
use volume::view::Place;
use volume::{decision, doing, lag, view};

// Both states of an accepted apply, as their records.
#[unsafe(no_mangle)]
pub extern "C" fn minnow_decide(
    d: &[u8],
    saved: &[u8],
    img: &[u8],
    during: &mut [u8],
    done: &mut [u8],
) -> u32
    ensures { (result, during.new, done.new) ≡ further_row during.old done.old (decide_records d.now saved.now img.now (length during.old) (length done.old)) }
{
    match decision::decide(d, saved, img) {
        Err(r) => r.number(),
        Ok((w, f)) => {
            if during.len() < State::SIZE || done.len() < State::SIZE {
                return Refusal::NoRoom.number();
            }
            // both are states, and there is room: neither is refused
            let _ = w.state().write(during);
            let _ = f.state().write(done);
            0
        }
    }
}

// An apply: every named block into the image, and Done as its record.
#[unsafe(no_mangle)]
pub extern "C" fn minnow_apply(d: &[u8], saved: &[u8], img: &mut [u8], done: &mut [u8]) -> u32
    ensures { (result, img.new, done.new) ≡ applied_row img.old done.old (apply_record d.now saved.now img.old (length done.old)) }
{
    if done.len() < State::SIZE {
        return without_room(d, saved, img);
    }
    match doing::apply(d, saved, img) {
        Err(r) => r.number(),
        Ok(f) => {
            // Done is a state, and there is room: it is not refused
            let _ = f.state().write(done);
            0
        }
    }
}

// The answer of an apply where too few bytes are lent for Done: whatever else is wrong comes first.
fn without_room(d: &[u8], saved: &[u8], img: &[u8]) -> u32
    ensures { refuse result ≡ apply_record d.now saved.now img.now 0 }
{
    match decision::decide(d, saved, img) {
        Err(r) => r.number(),
        Ok(_) => Refusal::NoRoom.number(),
    }
}

#[unsafe(no_mangle)]
pub extern "C" fn minnow_run(d: &[u8], img: &mut [u8], i: usize, k: usize, next: &mut usize) -> u32
    ensures { (result, img.new, next.new) ≡ wrote_row img.old next.old (run d.now img.old i k) }
{
    hand_out(doing::run(d, img, i, k), next)
}

// Which slice shows block a (0 the diff, 1 the image), and from which byte on.
#[unsafe(no_mangle)]
pub extern "C" fn minnow_read_through(
    d: &[u8],
    img: &[u8],
    a: usize,
    slice: &mut u32,
    at: &mut usize,
) -> u32
    ensures { (result, slice.new, at.new) ≡ view_row slice.old at.old (read_through d.now img.now a) }
{
    match view::find_block(d, img, a) {
        Err(r) => r.number(),
        Ok(Place::InDiff(k)) => {
            *slice = 0;
            *at = k;
            0
        }
        Ok(Place::InImage(k)) => {
            *slice = 1;
            *at = k;
            0
        }
    }
}

#[unsafe(no_mangle)]
pub extern "C" fn minnow_lag(saved: &[u8], target: u64, gids: &mut i64) -> u32
    ensures { (result, gids.new) ≡ lag_row gids.old (lag saved.now target) }
{
    hand_out(lag::lag(saved, target), gids)
}
