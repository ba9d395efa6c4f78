//! Certificates with their verdicts, whole judgements, and histories that are written as certificates. This crate has tests alone.
#![tactic(auto)]

#[cfg(test)]
mod histories;
#[cfg(test)]
mod judging;
