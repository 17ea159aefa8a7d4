// The plan of a restore: "the first such list in dictionary order of places".
ghost use Rattle.std.specs.Prelude.{◌≡◌};
ghost use Rattle.paper.specs.Answer.{refuse};
ghost use Rattle.record.specs.Refusals.{number_of};
ghost use Rattle.record.specs.States.{state};
ghost use Rattle.plan.specs.Shelves.{empty};
ghost use Rattle.plan.specs.Search.{Finds};
ghost use Rattle.plan.specs.Plans.{Tells, Answers, Gives};

use crate::marks::Search;
use crate::shelf::{PLACES, Shelf};
use record::head::MAX_GID;
use record::refusal::Refusal;
use record::state::State;
use volume::decision;

// "The answer has a length and a fixed number of places; those past the length hold 0." It keeps the shelf that it was made for.
// One struct, refused or not: "counts, lengths and places zero".
#[derive(Clone, Copy)]
pub struct Plan {
    pub said: Result<(), Refusal>,
    pub length: usize,
    pub places: [usize; PLACES],
    pub shelf: Shelf,
}

impl Plan {
    // "counts, lengths and places zero"
    #[tactic(auto, unfolding(paper::specs::Plan::laid_out))]
    fn refused(why: Refusal) -> Plan
        ensures { Tells empty (refuse (number_of why)) result }
    {
        Plan {
            said: Err(why),
            length: 0,
            places: [0; PLACES],
            shelf: Shelf::empty(),
        }
    }
}

// "A plan checks 18, then each entry in shelf order for 3 and then 4, then 7, 20, 19."
pub fn plan_restore(on: Shelf, saved: &[u8], target: u64) -> Plan
    ensures { Answers on saved.now target result }
{
    found(on, saved, target).unwrap_or_else(Plan::refused)
}

// The plan, or what refuses it.
#[tactic(auto, using(crate::proofs::Answering::full_no, crate::proofs::Answering::gid_no))]
fn found(on: Shelf, saved: &[u8], target: u64) -> Result<Plan, Refusal>
    ensures { Gives on saved.now target result }
{
    if on.count > PLACES {
        return Err(Refusal::ShelfFull);
    }
    on.check()?;
    let start = State::read(saved)?;
    if target > MAX_GID {
        return Err(Refusal::BadGid);
    }
    Search { on, start, target }.walk()
}

impl Search {
    // Walks from the start, always to the lowest place that is accepted and marked.
    fn walk(&self) -> Result<Plan, Refusal>
        ensures { Finds self.now.on (state self.now.start) self.now.target result }
    {
        let marks = self.mark();
        let mut s = self.start;
        let mut places = [0; PLACES];
        let mut length = 0; // where the next place goes: the walk has no index
        while !self.at_target(s) {
            let Some(i) = self.lead(s, &marks) else {
                return Err(Refusal::NoChain);
            };
            places[length] = i;
            length += 1;
            s = decision::done_state(self.on.heads[i], s).state();
        }
        Ok(Plan {
            said: Ok(()),
            length,
            places,
            shelf: self.on.kept(),
        })
    }
}
