// 01, "Records" and "When the desk says no": the refusals, and the head, block and state records of any bytes.
#![tactic(auto)]

pub mod block;
pub mod head;
pub mod image;
mod mark;
pub mod records;
pub mod refusal;
pub mod state;
