// 01, "Moves of a volume": decide, apply, run, read-through and lag.
#![tactic(auto)]

pub mod decision;
pub mod doing;
pub mod lag;
pub mod view;
mod write;
