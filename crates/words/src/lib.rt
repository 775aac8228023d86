// How text is read as words: runs of bytes, words between blanks, keywords, pieces between commas.
#![tactic(auto)]

pub mod inner;
pub mod runs;
pub mod words;
