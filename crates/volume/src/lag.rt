// The lag: "b minus the target gid, a signed number".
ghost use Rattle.std.specs.Prelude.{◌≡◌};
ghost use Rattle.paper.specs.Volume.{lag};
ghost use Rattle.volume.specs.Lags.{said_lag};

use record::head::MAX_GID;
use record::refusal::Refusal;
use record::state::State;

// "The lag checks 7, then 20." Below zero means that the volume is behind.
#[tactic(auto, using(crate::proofs::Deciding::gid_no))]
pub fn lag(state: &[u8], target: u64) -> Result<i64, Refusal>
    ensures { said_lag result ≡ lag state.now target }
{
    let s = State::read(state)?;
    if target > MAX_GID {
        return Err(Refusal::BadGid);
    }
    Ok(s.b as i64 - target as i64)
}
