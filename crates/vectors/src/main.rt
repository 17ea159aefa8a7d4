// Records at the edges of 01's rules: each row prints what was tried and the number answered. The expected numbers in `stdout` are worked out from 01.
#![tactic(auto)]

mod diffs;
mod print;
mod states;

use std::io;

fn main(rt: HostRuntime) -> io::Result<()> {
    diffs::heads(&rt)?;
    diffs::lengths(&rt)?;
    diffs::records(&rt)?;
    states::reading(&rt)?;
    states::kinds(&rt)?;
    states::writing(&rt)?;
    states::kinds_written(&rt)?;
    states::images(&rt)?;
    Ok(())
}
