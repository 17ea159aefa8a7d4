// 01, "A plan is a list of shelf places": shelves, and the plan of a restore.
#![tactic(auto)]

mod marks;
pub mod planning;
pub mod shelf;
