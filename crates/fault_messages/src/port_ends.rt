//! What is wrong with the port of a node, by its kind.
ghost use Rattle.std.specs.Prelude.{◌≡◌, ◌++◌, OnOk};
ghost use Rattle.fault_messages.specs.NameRules.{end_port};
ghost use Rattle.fault_messages.specs.Places.{quoted};
ghost use Rattle.fault_messages.specs.PortEnds.{is_last, is_first, has_output, is_input_name, outputs_of, inputs_of, ports_of};
ghost use Rattle.fault_messages.specs.PortEnds.{end_said, way_part, no_such, no_output, no_input, ends_said, port_line, port_said};

use crate::name_rules::{end_name, end_port};
use crate::putting::{put_behind, put_both, put_two_quoted};
use pw_lists::{Memory, Text};

// Whether a kind has no outputs.
fn is_last(kind: &[u8]) -> bool
    ensures { result ≡ is_last kind.now }
{
    kind == b"sink".as_slice() || kind == b"meter".as_slice()
}

// Whether a kind has no inputs.
fn is_first(kind: &[u8]) -> bool
    ensures { result ≡ is_first kind.now }
{
    kind == b"source".as_slice() || kind == b"square".as_slice()
}

fn has_output(kind: &[u8], port: &[u8]) -> bool
    ensures { result ≡ has_output kind.now port.now }
{
    if kind == b"split".as_slice() {
        port == b"left".as_slice() || port == b"right".as_slice()
    } else {
        port == b"out".as_slice() && !is_last(kind)
    }
}

fn is_input_name(port: &[u8]) -> bool
    ensures { result ≡ is_input_name port.now }
{
    port == b"in".as_slice() || port == b"a".as_slice() || port == b"b".as_slice()
}

#[tactic(auto, unfolding(crate::specs::PortEnds::outputs_of))]
fn outputs_of(kind: &[u8]) -> &'static [u8]
    ensures { result.now ≡ outputs_of kind.now }
{
    if kind == b"split".as_slice() {
        b", whose outputs are left and right"
    } else if is_last(kind) {
        b", which has none"
    } else {
        b", whose output is out"
    }
}

#[tactic(auto, unfolding(crate::specs::PortEnds::inputs_of))]
fn inputs_of(kind: &[u8]) -> &'static [u8]
    ensures { result.now ≡ inputs_of kind.now }
{
    if kind == b"mix2".as_slice() {
        b", whose inputs are a and b"
    } else if is_first(kind) {
        b", which has none"
    } else {
        b", whose input is in"
    }
}

#[tactic(auto, unfolding(crate::specs::PortEnds::ports_of))]
fn ports_of(kind: &[u8]) -> &'static [u8]
    ensures { result.now ≡ ports_of kind.now }
{
    if kind == b"split".as_slice() {
        b", whose ports are in, left and right"
    } else if kind == b"mix2".as_slice() {
        b", whose ports are a, b and out"
    } else if is_first(kind) {
        b", whose port is out"
    } else if is_last(kind) {
        b", whose port is in"
    } else {
        b", whose ports are in and out"
    }
}

// An end with no such port, and the ports that its node has.
#[tactic(auto, unfolding(crate::specs::PortEnds::end_said))]
fn put_end_said(
    text: &mut Text,
    word: &[u8],
    what: &[u8],
    kind: &[u8],
    ports: &[u8],
) -> Result<(), Memory>
    ensures { OnOk result (text.new ≡ text.old ++ end_said word.now what.now kind.now ports.now) }
{
    put_behind(text, word, what)?;
    put_behind(text, end_name(word), b" is a ")?;
    text.extend(kind)?;
    text.extend(ports)
}

// The same, with words after it.
fn put_end_words(
    text: &mut Text,
    word: &[u8],
    what: &[u8],
    kind: &[u8],
    ports: &[u8],
    behind: &[u8],
) -> Result<(), Memory>
    ensures { OnOk result (text.new ≡ text.old
        ++ (end_said word.now what.now kind.now ports.now ++ behind.now)) }
{
    put_end_said(text, word, what, kind, ports)?;
    text.extend(behind)
}

// Which way links go, where an end that names an input is given for an output.
#[tactic(auto, unfolding(crate::specs::PortEnds::way_part))]
fn way_part(word: &[u8]) -> &'static [u8]
    ensures { result.now ≡ way_part (end_port word.now) }
{
    if is_input_name(end_port(word)) {
        b"; a link goes from an output to an input"
    } else {
        b""
    }
}

// What is wrong, where no line that makes the node is at hand.
fn no_such() -> &'static [u8]
    ensures { result.now ≡ no_such }
{
    b"the node has no such port"
}

#[tactic(auto, unfolding(crate::specs::PortEnds::no_output))]
fn put_no_output(text: &mut Text, word: &[u8], kind: &[u8]) -> Result<(), Memory>
    ensures { OnOk result (text.new ≡ text.old ++ no_output word.now kind.now) }
{
    if kind == b"".as_slice() {
        text.extend(no_such())
    } else {
        put_end_words(
            text,
            word,
            b" is no output: ",
            kind,
            outputs_of(kind),
            way_part(word),
        )
    }
}

#[tactic(auto, unfolding(crate::specs::PortEnds::no_input))]
fn put_no_input(text: &mut Text, word: &[u8], kind: &[u8]) -> Result<(), Memory>
    ensures { OnOk result (text.new ≡ text.old ++ no_input word.now kind.now) }
{
    if kind == b"".as_slice() {
        text.extend(no_such())
    } else {
        put_end_said(text, word, b" is no input: ", kind, inputs_of(kind))
    }
}

/// What is wrong with two ends of nodes of these kinds.
#[tactic(auto, unfolding(crate::specs::PortEnds::ends_said))]
pub fn put_ends(
    text: &mut Text,
    from: &[u8],
    from_kind: &[u8],
    to: &[u8],
    to_kind: &[u8],
) -> Result<(), Memory>
    ensures { OnOk result (text.new ≡ text.old
        ++ ends_said from.now from_kind.now to.now to_kind.now) }
{
    if has_output(from_kind, end_port(from)) {
        put_no_input(text, to, to_kind)
    } else {
        put_no_output(text, from, from_kind)
    }
}

// Two words in quotes with words after each, and further words.
fn put_port_words(
    text: &mut Text,
    name: &[u8],
    between: &[u8],
    port: &[u8],
    behind: &[u8],
    kind: &[u8],
    ports: &[u8],
) -> Result<(), Memory>
    ensures { OnOk result (text.new ≡ text.old ++ (quoted name.now ++ (between.now
        ++ (quoted port.now ++ (behind.now ++ (kind.now ++ ports.now)))))) }
{
    put_two_quoted(text, name, between, port, behind)?;
    put_both(text, kind, ports)
}

// A port that a node of this kind, with these ports, does not have.
#[tactic(auto, unfolding(crate::specs::PortEnds::port_line))]
fn put_port_line(
    text: &mut Text,
    name: &[u8],
    kind: &[u8],
    port: &[u8],
    ports: &[u8],
) -> Result<(), Memory>
    ensures { OnOk result (text.new ≡ text.old ++ port_line name.now kind.now port.now ports.now) }
{
    put_port_words(
        text,
        name,
        b" has no port ",
        port,
        b": it is a ",
        kind,
        ports,
    )
}

/// What is wrong with a port of a node of this kind.
#[tactic(auto, unfolding(crate::specs::PortEnds::port_said))]
pub fn put_port(text: &mut Text, name: &[u8], kind: &[u8], port: &[u8]) -> Result<(), Memory>
    ensures { OnOk result (text.new ≡ text.old ++ port_said name.now kind.now port.now) }
{
    if kind == b"".as_slice() {
        text.extend(no_such())
    } else {
        put_port_line(text, name, kind, port, ports_of(kind))
    }
}
