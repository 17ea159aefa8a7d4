// Answers as C has them: a number that is zero or a refusal's, and what a call gives beside it where the caller lent room.
// A call that gives more than one value tells them out itself: C has no `Result`, so no `?` can end it.
ghost use Rattle.std.specs.Prelude.{◌≡◌};
ghost use Rattle.desk.specs.Answers.{number_row};

use record::refusal::Refusal;

// "Zero means done." The value goes out; a refusal leaves what was there.
pub(crate) fn hand_out<T: Copy>(said: Result<T, Refusal>, to: &mut T) -> u32
    ensures { (result, to.new) ≡ number_row to.old said }
{
    match said {
        Err(r) => r.number(),
        Ok(value) => {
            *to = value;
            0
        }
    }
}
