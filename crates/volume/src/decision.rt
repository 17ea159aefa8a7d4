// Deciding: rules 11 to 14, and the two further states of an accepted apply.
ghost use Rattle.std.specs.Prelude.{◌≡◌};
ghost use Rattle.paper.specs.Volume.{exact, is_pair_while, while_state, done_state, decide_on, decide};
ghost use Rattle.record.specs.Heads.{head};
ghost use Rattle.record.specs.States.{state};
ghost use Rattle.volume.specs.Decisions.{while, done, said_decision};

use record::head::Head;
use record::records::Checked;
use record::refusal::Refusal;
use record::state::{Kind, State};

// "While: b stays, t becomes q, e becomes the larger of q and e". It and Done are structs of their own, each with a kind, as 01's forms ask,
// so that neither can be saved in the place of the other.
#[derive(Clone, Copy)]
pub struct While {
    pub kind: Kind,
    pub b: u64,
    pub t: u64,
    pub e: u64,
}

// "Done: settled at b = t = q, with e the larger of q and e"
#[derive(Clone, Copy)]
pub struct Done {
    pub kind: Kind,
    pub b: u64,
    pub t: u64,
    pub e: u64,
}

// "An accepted apply has two further states."
pub type Decision = Result<(While, Done), Refusal>;

// "p = b and (the state is clean, or kind 2 with q = t)"
fn is_exact(h: Head, s: State) -> bool
    ensures { result ≡ exact (head h) (state s) }
{
    h.p == s.b && (s.is_clean() || s.kind == Kind::Pair && h.q == s.t)
}

// "kind 2 if the diff is compared or the state was clean, else kind 1"
fn is_pair_while(h: Head, s: State) -> bool
    ensures { result ≡ is_pair_while (head h) (state s) }
{
    h.is_compared() || s.is_clean()
}

fn while_state(h: Head, s: State) -> While
    ensures { while result ≡ while_state (head h) (state s) }
{
    let e = h.q.max(s.e);
    While {
        kind: if is_pair_while(h, s) {
            Kind::Pair
        } else {
            Kind::Span
        },
        b: s.b,
        t: h.q,
        e,
    }
}

pub fn done_state(h: Head, s: State) -> Done
    ensures { done result ≡ done_state (head h) (state s) }
{
    Done {
        kind: Kind::Settled,
        b: h.q,
        t: h.q,
        e: h.q.max(s.e),
    }
}

// The decision on values: "11 to 14 in that order".
#[tactic(auto, using(crate::proofs::Deciding::exact_no))]
pub fn decide_on(h: Head, s: State) -> Decision
    ensures { said_decision result ≡ decide_on (head h) (state s) }
{
    if h.q <= s.b {
        return Err(Refusal::Behind);
    }
    if h.p > s.b {
        return Err(Refusal::Gap);
    }
    if h.q < s.t {
        return Err(Refusal::Short);
    }
    if h.is_compared() && !is_exact(h, s) {
        return Err(Refusal::NotExact);
    }
    Ok((while_state(h, s), done_state(h, s)))
}

// "Deciding takes an apply's inputs, makes its checks, writes nothing and gives both states."
// "An apply checks diff, state, image, Outside, then 11 to 14 in that order."
pub fn decide(d: &[u8], saved: &[u8], img: &[u8]) -> Decision
    ensures { said_decision result ≡ decide d.now saved.now img.now }
{
    let diff = diff::whole(d)?;
    decide_whole(diff, saved, img)
}

// The checks that are left where the diff has passed.
pub(crate) fn decide_whole(diff: Checked, saved: &[u8], img: &[u8]) -> Decision
    ensures { said_decision result ≡ decide diff.entry.d.now saved.now img.now }
{
    let s = State::read(saved)?;
    let _blocks = diff.fits(img)?;
    decide_on(diff.h, s)
}

impl While {
    // The state to save before the first byte moves. A call by name and no `From`: what is saved when is the rule, and docs/PROMISES.md names both calls.
    pub fn state(self) -> State
        ensures { state result ≡ while self }
    {
        let during = self.kind;
        State {
            kind: during,
            b: self.b,
            t: self.t,
            e: self.e,
        }
    }
}

impl Done {
    // The state to save after the last byte moved.
    pub fn state(self) -> State
        ensures { state result ≡ done self }
    {
        let after = self.kind;
        State {
            kind: after,
            b: self.b,
            t: self.t,
            e: self.e,
        }
    }
}
