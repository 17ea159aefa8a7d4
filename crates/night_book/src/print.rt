// How a state is printed.
use record::state::State;
use std::fmt;

// A state, as "kind 2 7,9,9".
#[derive(Clone, Copy)]
pub struct Shown(pub State);

impl fmt::Display for Shown {
    fn fmt<W: fmt::Write>(&self, f: &mut fmt::Formatter<W>) -> fmt::Result {
        let State { kind, b, t, e } = self.0;
        let kind = kind.number();
        write!(f, "kind {kind} {b},{t},{e}")
    }
}
