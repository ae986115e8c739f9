//! The top call: what a command line does, from its words to files, text and status.
#![tactic(auto)]

mod clashes;
mod commands;
mod format_file;
mod inputs;
mod joined;
mod loaded_script;
mod loads;
mod one_answer;
mod options;
mod parted;
mod parts_alone;
mod plan_work;
mod planned;
mod played;
mod playing;
mod pod_file;
mod points_file;
mod preparing;
mod refused;
mod script_loads;
mod surely;
mod top;
mod usage;
mod wave_file;

pub use one_answer::order_shows_in_events_alone;
pub use parts_alone::parts_store_as_alone;
pub use run_results::{Clash, Content, Found, PodWhy, Status, Store, What, Work};
pub use surely::run_surely;
pub use top::{Ran, Report, run_words, run_words_with};
pub use usage::ticks_of;
