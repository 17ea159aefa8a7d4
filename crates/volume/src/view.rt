// A read-through: a block as it would stand after the apply, in place.
ghost use Rattle.std.specs.Prelude.{◌≡◌};
ghost use Rattle.paper.specs.Answer.{number};
ghost use Rattle.paper.specs.Volume.{read_through, seen};
ghost use Rattle.volume.specs.Views.{said_place, place_of};

use record::block::Block;
use record::head::Head;
use record::refusal::Refusal;

// Where a block stands: in the diff or in the image, from which byte on.
#[derive(Clone, Copy)]
pub enum Place {
    InDiff(usize),
    InImage(usize),
}

// "A read-through checks diff, 8, then 9." The place of block a.
pub fn find_block(d: &[u8], img: &[u8], a: usize) -> Result<Place, Refusal>
    ensures { said_place result ≡ read_through d.now img.now a }
{
    let diff = diff::whole(d)?;
    let m = diff.fits(img)?;
    if m <= a {
        return Err(Refusal::Outside);
    }
    match diff.find(a) {
        Some(i) => Ok(Place::InDiff(Head::SIZE + Block::SIZE * i + Block::CONTENT)),
        None => Ok(Place::InImage(Block::BYTES * a)),
    }
}

// "it is a part of the lent diff where the diff names a, otherwise a part of the lent image, and never a copy".
// The number goes to `said`; a refusal gives an empty view: "views empty". Both are clauses of a public call, and the `Err` of a `Result` would hold no view.
pub fn read_through<'a>(d: &'a [u8], img: &'a [u8], a: usize, said: &mut u32) -> &'a [u8]
    ensures told { said.new ≡ number (read_through d.now img.now a) }
    ensures shown { result.now ≡ seen d.now img.now (read_through d.now img.now a) }
    ensures placed { result.ref_ptr ≡ place_of d.entry.ref_ptr img.entry.ref_ptr (read_through d.now img.now a) }
{
    let place = match find_block(d, img, a) {
        Ok(place) => place,
        Err(r) => {
            *said = r.number();
            return &d[0..0];
        }
    };
    *said = 0;
    match place {
        Place::InDiff(at) => &d[at..at + Block::BYTES],
        Place::InImage(at) => &img[at..at + Block::BYTES],
    }
}
