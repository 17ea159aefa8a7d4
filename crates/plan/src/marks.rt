// From which places the target can be reached: "the end is clean at the target".
ghost use Rattle.std.specs.Prelude.{◌≡◌, ◌&&◌, ◌≤◌, ◌<◌};
ghost use Rattle.paper.specs.Plan.{at_target};
ghost use Rattle.paper.specs.Volume.{decide_on};
ghost use Rattle.paper.proofs.Step.{accepted};
ghost use Rattle.paper.proofs.Marks.{lead, would_mark, marked};
ghost use Rattle.record.specs.Heads.{head};
ghost use Rattle.record.specs.States.{state};
ghost use Rattle.record.specs.Records.{said_found};
ghost use Rattle.plan.specs.Shelves.{shelf};
ghost use Rattle.plan.specs.Search.{ToSweep, Sweeps, ToWalk};

use crate::shelf::{PLACES, Shelf};
use record::head::Head;
use record::state::State;
use volume::decision;

// What a search goes by: a shelf, the state to start from, and the target.
#[derive(Clone, Copy)]
pub(crate) struct Search {
    pub on: Shelf,
    pub start: State,
    pub target: u64,
    pub ghost few: { on.count ≤ 96 },
}

// Whether an entry is accepted at s, and its place is marked.
#[tactic(auto, using(crate::proofs::Leads::ok_is_accepted))]
fn leads(h: Head, s: State, mark: bool) -> bool
    ensures { result ≡ (accepted (decide_on (head h) (state s)) && mark) }
{
    mark && decision::decide_on(h, s).is_ok()
}

impl Search {
    // "clean at the target"
    #[tactic(auto, unfolding(paper::specs::Plan::at_target))]
    pub(crate) fn at_target(&self, s: State) -> bool
        ensures { result ≡ at_target (state s) self.now.target }
    {
        s.is_clean() && s.b == self.target
    }

    // The lowest place that is accepted at s and marked.
    pub(crate) fn lead(&self, s: State, marks: &[bool; PLACES]) -> Option<usize>
        ensures { said_found result ≡ lead (shelf self.now.on) (state s) (marked marks.now) }
    {
        // A `for`: a closure for find would owe, in a clause of its own, that i is an entry's.
        for i in 0..self.on.count {
            if leads(self.on.heads[i], s, marks[i]) {
                return Some(i);
            }
        }
        None
    }

    // Whether the target can be reached from the state after place j: it is there, or a marked place follows.
    fn would_mark(&self, marks: &[bool; PLACES], j: usize) -> bool
        requires { j < 96 }
        ensures { result ≡ would_mark (shelf self.now.on) self.now.start.e self.now.target (marked marks.now) j }
    {
        let s = decision::done_state(self.on.heads[j], self.start).state();
        self.at_target(s) || self.lead(s, marks).is_some()
    }

    // Sets the marks that the marks so far allow, from the last place to the first: the marks after it, or none where it set none.
    fn sweep(&self, old: [bool; PLACES]) -> Option<[bool; PLACES]>
        requires { ToSweep (shelf self.now.on) self.now.start.e self.now.target old }
        ensures { Sweeps (shelf self.now.on) self.now.start.e self.now.target old result }
    {
        let mut marks = old;
        let mut changed = false;
        for j in (0..self.on.count).rev() {
            if !marks[j] && self.would_mark(&marks, j) {
                marks[j] = true;
                changed = true;
            }
        }
        if changed { Some(marks) } else { None }
    }

    // Sweeps until one sets no mark: each of the others sets one, so there are at most count + 1.
    pub(crate) fn mark(&self) -> [bool; PLACES]
        ensures { ToWalk (shelf self.now.on) self.now.start.e self.now.target result }
    {
        let mut marks = [false; PLACES];
        while let Some(more) = self.sweep(marks) {
            marks = more;
        }
        marks
    }
}
