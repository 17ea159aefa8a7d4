// The state record: "57 53, kind, a zero byte, b (8), t (8), e (8)".
ghost use Rattle.std.specs.Prelude.{◌≡◌, ◌≤◌, length};
ghost use Rattle.paper.specs.Answer.{comes_back, over};
ghost use Rattle.paper.specs.State.{clean, settled, pair, is_clean, bad_state, read_state, write_state};
ghost use Rattle.record.specs.States.{kind_number, said_kind, kind_of, state, said_state, said_length};

use crate::head::MAX_GID;
use crate::mark;
use crate::refusal::Refusal;
use number::Field;

// "Kind 0 (settled)", "Kind 1 (span)", "Kind 2 (pair)"
#[derive(Clone, Copy, Debug, PartialEq, Eq)]
pub enum Kind {
    Settled,
    Span,
    Pair,
}

impl Kind {
    // The kind that a byte of at most 2 stands for. It cannot fail: `try_from`, below, is for any byte.
    pub fn of(byte: u8) -> Kind
        requires { byte ≤ 2 }
        ensures { kind_number result ≡ byte }
    {
        match byte {
            0 => Kind::Settled,
            1 => Kind::Span,
            _ => Kind::Pair,
        }
    }

    // Its number in 01.
    pub fn number(self) -> u8
        ensures { result ≡ kind_number self }
    {
        self as u8
    }
}

// The kind that a record's byte stands for; a byte above 2 stands for none.
impl TryFrom<u8> for Kind {
    type Error = Refusal;

    ghost try_from_gives = { λ byte r. said_kind r ≡ kind_of byte };

    fn try_from(byte: u8) -> Result<Kind, Refusal> {
        match byte {
            0 => Ok(Kind::Settled),
            1 => Ok(Kind::Span),
            2 => Ok(Kind::Pair),
            _ => Err(Refusal::BadState),
        }
    }
}

// "A state has three gids b, t, e and a kind." A value may break the rules of its kind.
#[derive(Clone, Copy)]
pub struct State {
    pub kind: Kind,
    pub b: u64,
    pub t: u64,
    pub e: u64,
}

impl State {
    pub const SIZE: usize = 28;

    // the second byte of its mark
    const MARK: u8 = 0x53;

    // "settled at b = t"
    pub fn settled(b: u64, e: u64) -> State
        ensures { state result ≡ settled b e }
    {
        State {
            kind: Kind::Settled,
            b,
            t: b,
            e,
        }
    }

    pub fn clean(g: u64) -> State
        ensures { state result ≡ clean g }
    {
        State::settled(g, g)
    }

    pub fn pair(b: u64, t: u64) -> State
        ensures { state result ≡ pair b t }
    {
        State {
            kind: Kind::Pair,
            b,
            t,
            e: t,
        }
    }

    // "clean if b = e", of the settled ones
    pub fn is_clean(self) -> bool
        ensures { result ≡ is_clean (state self) }
    {
        self.kind == Kind::Settled && self.b == self.e
    }

    // "gid too large, or gids against the kind"
    pub fn is_bad(self) -> bool
        ensures { result ≡ bad_state (state self) }
    {
        if self.b > MAX_GID {
            return true;
        }
        if self.t > MAX_GID {
            return true;
        }
        if self.e > MAX_GID {
            return true;
        }
        match self.kind {
            Kind::Settled => {
                if self.t != self.b {
                    return true;
                }
                self.b > self.e
            }
            Kind::Span => {
                if self.b >= self.t {
                    return true;
                }
                self.t > self.e
            }
            Kind::Pair => {
                if self.b >= self.t {
                    return true;
                }
                self.t != self.e
            }
        }
    }

    // A state of any bytes: BadState, or the state.
    #[tactic(auto, using(crate::proofs::StateLaws::read_no_kind))]
    pub fn read(r: &[u8]) -> Result<State, Refusal>
        ensures { said_state result ≡ read_state r.now }
    {
        if r.len() != State::SIZE {
            return Err(Refusal::BadState);
        }
        if !mark::opens(r, State::MARK) {
            return Err(Refusal::BadState);
        }
        if r[3] != 0 {
            return Err(Refusal::BadState);
        }
        let s = State {
            kind: Kind::try_from(r[2])?,
            b: u64::read(r, 4),
            t: u64::read(r, 12),
            e: u64::read(r, 20),
        };
        if s.is_bad() {
            return Err(Refusal::BadState);
        }
        Ok(s)
    }

    // "A state is also written out as its record (BadState, then NoRoom)."
    #[tactic(auto, using(crate::proofs::StateLaws::write_short), unfolding(paper::specs::Answer::comes_back, paper::specs::Answer::over))]
    pub fn write(self, out: &mut [u8]) -> Result<usize, Refusal>
        ensures answered { said_length result ≡ comes_back (write_state (state self) (length out.old)) }
        ensures leaves { out.new ≡ over out.old (write_state (state self) (length out.old)) }
    {
        if self.is_bad() {
            return Err(Refusal::BadState);
        }
        if out.len() < State::SIZE {
            return Err(Refusal::NoRoom);
        }
        out[0] = mark::FIRST;
        out[1] = State::MARK;
        out[2] = self.kind.number();
        out[3] = 0;
        self.b.write(out, 4);
        self.t.write(out, 12);
        self.e.write(out, 20);
        Ok(State::SIZE)
    }
}
