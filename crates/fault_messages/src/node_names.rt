//! How a node is named that only its number is known of.
ghost use Rattle.std.specs.Prelude.{◌≡◌, ◌++◌, codes, decimal, option_copied, OnOk};
ghost use Rattle.fault_messages.specs.NodeNames.{name_said, word_said, node_text, node_word};

use crate::putting::put_quoted;
use pw_lists::{Memory, Text, append_decimal};
use shown_words::put_escaped;

/// The number of the built-in driver.
const DUMMY_NODE: u32 = 63;

// A node by its number.
fn put_numbered(text: &mut Text, number: u32) -> Result<(), Memory>
    ensures { OnOk result (text.new ≡ text.old ++ (codes "node " ++ decimal number)) }
{
    text.extend(b"node ")?;
    append_decimal(text, u64::from(number))
}

// A node by its name, or by its number where it has none.
fn put_name_said(text: &mut Text, name: Option<&Text>, number: u32) -> Result<(), Memory>
    ensures { OnOk result (text.new ≡ text.old ++ name_said (option_copied name.entry) number) }
{
    match name {
        None => put_numbered(text, number),
        Some(name) => put_quoted(text, name.as_slice()),
    }
}

/// The name of a node, by its number and by the names of the script's nodes.
#[tactic(auto, unfolding(crate::specs::NodeNames::node_text))]
pub fn put_node(text: &mut Text, names: &[Text], number: u32) -> Result<(), Memory>
    ensures { OnOk result (text.new ≡ text.old ++ node_text names.now number) }
{
    if number == DUMMY_NODE {
        put_quoted(text, b"dummy")
    } else {
        put_name_said(text, names.get(number as usize), number)
    }
}

// The same without quotes.
fn put_word_said(text: &mut Text, name: Option<&Text>, number: u32) -> Result<(), Memory>
    ensures { OnOk result (text.new ≡ text.old ++ word_said (option_copied name.entry) number) }
{
    match name {
        None => put_numbered(text, number),
        Some(name) => put_escaped(text, name.as_slice()),
    }
}

/// The name of a node as a trace has it, by its number and by the names of the script's nodes.
#[tactic(auto, unfolding(crate::specs::NodeNames::node_word))]
pub fn put_node_word(text: &mut Text, names: &[Text], number: u32) -> Result<(), Memory>
    ensures { OnOk result (text.new ≡ text.old ++ node_word names.now number) }
{
    if number == DUMMY_NODE {
        text.extend(b"dummy")
    } else {
        put_word_said(text, names.get(number as usize), number)
    }
}

/// The name of a node in quotes, between words.
pub fn put_node_between(
    text: &mut Text,
    before: &[u8],
    names: &[Text],
    number: u32,
    behind: &[u8],
) -> Result<(), Memory>
    ensures { OnOk result (text.new ≡ text.old
        ++ (before.now ++ (node_text names.now number ++ behind.now))) }
{
    text.extend(before)?;
    put_node(text, names, number)?;
    text.extend(behind)
}
