// 01's night book, and further rows beside it: each prints what was asked and what was answered. The expected answers in `stdout` are worked out from 01.
#![tactic(auto)]

mod decisions;
mod make;
mod merges;
mod plans;
mod print;
mod volumes;

use std::io;

fn main(rt: HostRuntime) -> io::Result<()> {
    decisions::rows(&rt)?;
    decisions::lags(&rt)?;
    volumes::applies(&rt)?;
    volumes::runs(&rt)?;
    volumes::views(&rt)?;
    merges::merges(&rt)?;
    merges::merge_edges(&rt)?;
    merges::merge_ends(&rt)?;
    merges::compares(&rt)?;
    merges::odd_compares(&rt)?;
    plans::rows(&rt)?;
    plans::ends(&rt)?;
    plans::bad(&rt)?;
    Ok(())
}
