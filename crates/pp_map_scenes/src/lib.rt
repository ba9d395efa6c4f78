//! Parts of worked scenes over any map: its calls made whole and turn by turn, for tests to stage with; and scenes of the plain map.
#![tactic(auto)]

#[cfg(test)]
mod calls;
#[cfg(test)]
mod plain;
pub mod staging;
