//! The text of a plan of turns: where it begins in an input, and what its lines say. The layers above `part` an input into trace and plan,
//! and `parse_plan` the second part.
#![tactic(auto)]

pub mod cutting;
pub mod parsing;

pub use cutting::{Parts, part};
pub use parsing::{PlanFault, PlanWhy, parse_plan};
