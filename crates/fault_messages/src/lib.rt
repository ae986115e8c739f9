//! Statuses in words, for people: what is wrong, and where, with the names that the command line
//! and the script have for it. A message is one sentence; that of a command line also has the words
//! of all commands. Where all was done there are notes: links that were not made, sinks without a
//! format, what a check or a filter found.
#![tactic(auto)]

mod byte_faults;
mod cause_words;
mod clashes;
mod clipped_sinks;
mod cycle_room;
mod empty_sinks;
mod event_words;
mod explaining;
mod file_messages;
mod form_messages;
mod help;
mod inactive_nodes;
mod key_names;
mod lines;
mod link_ends;
mod link_notes;
mod lone_inputs;
mod main_words;
mod makers;
mod map_hints;
mod name_rules;
mod nearest;
mod node_names;
mod note_heads;
mod notes;
mod places;
mod pod_messages;
mod port_ends;
mod putting;
mod reason_notes;
mod refused_sides;
mod script_lines;
mod script_messages;
mod sentences;
mod sink_files;
mod sink_notes;
mod sink_waves;
mod unknown_names;
mod unused_nodes;
mod usages;
mod word_rules;

pub use explaining::explain;
pub use sentences::{message, words_message};
