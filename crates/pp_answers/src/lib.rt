//! Which answers suit each call of a map, and how an answer becomes what its call returns: said once for every structure that makes its
//! calls turn by turn. The layers above use `of_get`, `of_insert`, `of_remove` and `of_cut`.
#![tactic(auto)]

pub mod answers;
