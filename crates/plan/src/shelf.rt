// "A shelf holds at most 96 diff heads; it is a value with a fixed number of places, numbered from 0, and a count of entries".
ghost use Rattle.std.specs.Prelude.{◌≡◌, ◌≤◌};
ghost use Rattle.paper.specs.Plan.{check_entries, kept_shelf};
ghost use Rattle.plan.specs.Shelves.{shelf, empty, said_entries};

use record::head::Head;
use record::refusal::Refusal;

pub const PLACES: usize = 96;

// What a place holds that was never filled.
const BLANK: Head = Head {
    kind: Head::LOG,
    spare: 0,
    p: 0,
    q: 0,
    n: 0,
};

// "places past the count have no part in any answer". An array by value with its count, as 01's forms ask: memory is fixed.
#[derive(Clone, Copy)]
pub struct Shelf {
    pub heads: [Head; PLACES],
    pub count: usize,
}

impl Shelf {
    pub fn empty() -> Shelf
        ensures { shelf result ≡ empty }
    {
        Shelf {
            heads: [BLANK; PLACES],
            count: 0,
        }
    }

    // "each entry in shelf order for 3 and then 4"
    pub(crate) fn check(self) -> Result<(), Refusal>
        requires { self.count ≤ 96 }
        ensures { said_entries result ≡ check_entries (shelf self) 0 self.count }
    {
        for h in &self.heads[..self.count] {
            h.check()?;
        }
        Ok(())
    }

    // The same entries, and blank past the count.
    #[tactic(auto, using(crate::proofs::Entries::keeps))]
    pub(crate) fn kept(self) -> Shelf
        requires { self.count ≤ 96 }
        ensures { shelf result ≡ kept_shelf (shelf self) }
    {
        let count = self.count;
        let mut heads = [BLANK; PLACES];
        heads[..count].copy_from_slice(&self.heads[..count]);
        Shelf { heads, count }
    }
}
