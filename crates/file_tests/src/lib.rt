//! Tests of what files hold, over public calls: WAV files, scripts, and the text of runs. They are
//! a crate of their own, since a crate that has tests is proved twice. There is nothing else here.
#![tactic(auto)]

#[cfg(test)]
mod commands;
#[cfg(test)]
mod script_texts;
#[cfg(test)]
mod scripts;
#[cfg(test)]
mod traces;
#[cfg(test)]
mod waves;
