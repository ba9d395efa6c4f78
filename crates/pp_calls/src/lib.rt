//! What callers of a map see of a pass of its pool, and how it grows with the steps that the pass makes. It is said once, for every
//! structure whose log lists the changes of a map. The layers above use its definitions and lemmas; it has no functions.
#![tactic(auto)]
