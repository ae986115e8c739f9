//! What is said of a word that is meant otherwise: `put_question` asks for the names that are near
//! a word, `shell_hint` says which sign of the shell is a part of a file's name, and `is_near` is
//! what near means.
#![tactic(auto)]

mod guesses;
mod nearness;
#[cfg(test)]
mod rows;
mod shell_signs;

pub use guesses::put_question;
pub use nearness::is_near;
pub use shell_signs::shell_hint;
