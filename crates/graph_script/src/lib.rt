//! The script of a graph: its lines as commands, and the first line at fault.
#![tactic(auto)]

mod arguments;
mod command;
mod command_text;
mod fault;
mod file_nodes;
mod graph_commands;
mod kinds;
mod lexing;
mod limits;
mod lines;
mod lists;
mod map_command;
mod name;
mod new_nodes;
mod node_commands;
mod node_names;
mod node_text;
mod nodes;
mod numbers;
mod param;
mod parsing;
mod port_commands;
mod ports;
mod printing;
mod progress;
mod reading;
mod saying;
mod script;
mod table;
mod word_text;

pub use command::Command;
pub use fault::{ScriptFault, ScriptWhy};
pub use kinds::kind_made;
pub use lexing::next_word;
pub use name::{Name, name_called, names, word_of};
pub use numbers::number_within;
pub use param::{Counted, Form, Label, Param, label_word};
pub use parsing::parse;
pub use printing::text_of;
pub use script::{Line, Script};
pub use table::params_of;
