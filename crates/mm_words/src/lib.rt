//! The words of texts and of names, and queries by words.
//!
//! A text is cut into words by Unicode's rules (UAX #29), and each word is folded by the default case
//! folding (The Unicode Standard, section 3.13). Two words are the same where their folded bytes are.
//! Normal forms aren't applied.
#![tactic(auto)]

pub mod calls;
mod error;
mod fold;
mod queries;
mod texts;
mod word;

pub use error::QueryError;
pub use queries::Query;
pub use texts::{push_name_words, push_text_words, sorted_words, words_of_name, words_of_text};
pub use word::Word;
