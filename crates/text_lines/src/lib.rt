//! The lines of a text, the words of a line and the numbers of words.
#![tactic(auto)]

mod numbers;
mod text_lines;
mod words;

pub use numbers::value_of;
pub use text_lines::TextLines;
pub use words::{
    four_words, has_words, is_blank, is_lawful, is_word, next_word, one_word, three_words,
    two_first_words, two_words,
};
