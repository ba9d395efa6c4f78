//! Worked scenes over pools of RowShape: what no single clause says, run once each. This crate has tests alone, and what they know of their
//! passes; scenes of another shape may use that.
#![tactic(auto)]

#[cfg(test)]
mod detaching;
#[cfg(test)]
mod noted;
#[cfg(test)]
mod staging;
#[cfg(test)]
mod tests;
