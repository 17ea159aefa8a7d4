// The check of a diff, and state records read and written.
ghost use Rattle.std.specs.Prelude.{◌≡◌, length};
ghost use Rattle.paper.specs.Answer.{comes_back, over};
ghost use Rattle.paper.specs.Diff.{check};
ghost use Rattle.paper.specs.State.{read_state, write_state};
ghost use Rattle.record.specs.States.{said_length};
ghost use Rattle.desk.specs.Rows.{head_row, state_row, wrote_row};

use crate::answers::hand_out;
use record::refusal::Refusal;
use record::state::{Kind, State};

// The check of a diff; its head goes out field by field.
#[unsafe(no_mangle)]
pub extern "C" fn minnow_check(
    d: &[u8],
    kind: &mut u8,
    p: &mut u64,
    q: &mut u64,
    n: &mut u32,
) -> u32
    ensures { (result, kind.new, p.new, q.new, n.new) ≡ head_row kind.old p.old q.old n.old (check d.now) }
{
    match diff::check(d) {
        Err(r) => r.number(),
        Ok(h) => {
            *kind = h.kind;
            *p = h.p;
            *q = h.q;
            *n = h.n;
            0
        }
    }
}

// A state of any bytes; its fields go out.
#[unsafe(no_mangle)]
pub extern "C" fn minnow_read_state(
    saved: &[u8],
    kind: &mut u8,
    b: &mut u64,
    t: &mut u64,
    e: &mut u64,
) -> u32
    ensures { (result, kind.new, b.new, t.new, e.new) ≡ state_row kind.old b.old t.old e.old (read_state saved.now) }
{
    match State::read(saved) {
        Err(r) => r.number(),
        Ok(s) => {
            *kind = s.kind.number();
            *b = s.b;
            *t = s.t;
            *e = s.e;
            0
        }
    }
}

// "A state is also written out as its record (BadState, then NoRoom)."
#[unsafe(no_mangle)]
pub extern "C" fn minnow_write_state(
    kind: u8,
    b: u64,
    t: u64,
    e: u64,
    out: &mut [u8],
    size: &mut usize,
) -> u32
    ensures { (result, out.new, size.new) ≡ wrote_row out.old size.old (write_state (record { kind = kind; b = b; t = t; e = e }) (length out.old)) }
{
    hand_out(write_state(kind, b, t, e, out), size)
}

// The kind comes from C as a number: a byte above 2 stands for none.
fn write_state(kind: u8, b: u64, t: u64, e: u64, out: &mut [u8]) -> Result<usize, Refusal>
    ensures answered { said_length result ≡ comes_back (write_state (record { kind = kind; b = b; t = t; e = e }) (length out.old)) }
    ensures leaves { out.new ≡ over out.old (write_state (record { kind = kind; b = b; t = t; e = e }) (length out.old)) }
{
    let kind = Kind::try_from(kind)?;
    State { kind, b, t, e }.write(out)
}
