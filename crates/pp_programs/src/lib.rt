//! What the top calls of all programs share: their words, their printed answers and their ends. The programs take their words by `words`,
//! print by `print_answers`, each with its own `AnswerLines`, and end by `end`.
#![tactic(auto)]

mod ending;
mod lines;
mod taking;

pub use ending::end;
pub use lines::{AnswerLines, MapLines, print_answers};
pub use taking::words;
