//! What the opening and the closing of a pool are to a map over it: definitions and lemmas alone, which every map over a pool cites where
//! it starts and where it closes.
#![tactic(auto)]
