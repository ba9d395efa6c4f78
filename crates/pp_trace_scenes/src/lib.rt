//! Devices, traces and words, with what no contract says of them. This crate has tests alone.
#![tactic(auto)]

#[cfg(test)]
mod devices;
#[cfg(test)]
mod making;
#[cfg(test)]
mod parsing;
#[cfg(test)]
mod printing;
#[cfg(test)]
mod words;
