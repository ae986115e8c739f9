//! Nodes and ports of earlier lines, by name.
ghost use Rattle.std.specs.Prelude.{◌≡◌, ◌<◌, length, option_map, IfOk, IfSome};
ghost use Rattle.graph_script.specs.Arguments.{endpoint_parts};
ghost use Rattle.graph_script.specs.Nodes as nodes;
ghost use Rattle.graph_script.specs.working.Sound.{IsSound};

use crate::fault::ScriptWhy;
use crate::node_names::{is_node_name, place_of};
use crate::ports::{input_called, output_called, port_called};
use crate::reading::Reading;
use pw_graph::{Kind, PortId};
use pw_lists::next_piece;

/// The number of a new node of this name, where it may have the name.
pub(crate) fn new_node(reading: &Reading, name: &[u8]) -> Result<u32, ScriptWhy>
    requires { IsSound reading.now }
    ensures { result ≡ nodes.new_arg reading.now name.now }
{
    let names = reading.script.names.as_slice();
    if !is_node_name(name) {
        Err(ScriptWhy::NameForm)
    } else if name == b"dummy".as_slice() || place_of(names, name).is_some() {
        Err(ScriptWhy::NameTaken)
    } else {
        Ok(names.len() as u32)
    }
}

/// The number of the node of this name.
pub(crate) fn node_at(reading: &Reading, name: &[u8]) -> Result<u32, ScriptWhy>
    requires { IsSound reading.now }
    ensures value { result ≡ nodes.node_arg reading.now name.now }
    ensures there { IfOk result (λ node. node < length reading.now.kinds) }
{
    if !is_node_name(name) {
        return Err(ScriptWhy::NameForm);
    }
    match place_of(reading.script.names.as_slice(), name) {
        None => Err(ScriptWhy::NameUnknown),
        Some(node) => Ok(node),
    }
}

/// The kind of a node.
pub(crate) fn kind_at(reading: &Reading, node: u32) -> &Kind
    requires { node < length reading.now.kinds }
    ensures { result.now ≡ nodes.kind_at reading.now node }
{
    &reading.kinds.as_slice()[node as usize]
}

/// The port that two words name: its node, and the port.
pub(crate) fn port_at(reading: &Reading, name: &[u8], port: &[u8]) -> Result<PortId, ScriptWhy>
    requires { IsSound reading.now }
    ensures { result ≡ nodes.port_arg reading.now name.now port.now }
{
    let node = node_at(reading, name)?;
    match port_called(kind_at(reading, node), port) {
        None => Err(ScriptWhy::PortUnknown),
        Some(port) => Ok(PortId { node, port }),
    }
}

// What is before and after the one dot of a word.
fn endpoint_parts(word: &[u8]) -> Option<(&[u8], &[u8])>
    ensures { option_map (λ parts. (parts.0.now, parts.1.now)) result ≡ endpoint_parts word.now }
{
    let (node, after) = next_piece(word, b'.');
    match after {
        None => None,
        Some(rest) => {
            let (port, more) = next_piece(rest, b'.');
            match more {
                None => Some((node, port)),
                Some(_more) => None,
            }
        }
    }
}

/// The output that the word names.
pub(crate) fn output_at(reading: &Reading, word: &[u8]) -> Result<PortId, ScriptWhy>
    requires { IsSound reading.now }
    ensures { result ≡ nodes.endpoint_arg nodes.output_called reading.now word.now }
{
    let Some((name, port)) = endpoint_parts(word) else {
        return Err(ScriptWhy::NameForm);
    };
    let node = node_at(reading, name)?;
    match output_called(kind_at(reading, node), port) {
        None => Err(ScriptWhy::PortUnknown),
        Some(port) => Ok(PortId { node, port }),
    }
}

/// The input that the word names.
pub(crate) fn input_at(reading: &Reading, word: &[u8]) -> Result<PortId, ScriptWhy>
    requires { IsSound reading.now }
    ensures { result ≡ nodes.endpoint_arg nodes.input_called reading.now word.now }
{
    let Some((name, port)) = endpoint_parts(word) else {
        return Err(ScriptWhy::NameForm);
    };
    let node = node_at(reading, name)?;
    match input_called(kind_at(reading, node), port) {
        None => Err(ScriptWhy::PortUnknown),
        Some(port) => Ok(PortId { node, port }),
    }
}
