//! The arguments of a command that begin with its node, at the end of a text. After `Memory` the
//! text has a part of them.
#![tactic(auto, using(crate::proofs::SpacedLemmas::spaces))]

ghost use Rattle.std.specs.Prelude.{◌≡◌, ◌<◌, ◌++◌, ◌∷◌, [], decimal, length, OnOk};
ghost use Rattle.std.specs.Fmt.{signed_decimal};
ghost use Rattle.graph_script.specs.Printing.{node_word, list_word, spaced};

use crate::word_text::{put_integer, put_list, put_node, put_number, put_word};
use pw_lists::{Memory, Text};

/// A node and a word.
pub(crate) fn put_node_word(
    text: &mut Text,
    names: &[Text],
    node: u32,
    word: &[u8],
) -> Result<(), Memory>
    requires { node < length names.now }
    ensures { OnOk result (text.new ≡ text.old
        ++ spaced (node_word names.now node ∷ word.now ∷ [])) }
{
    put_node(text, names, node)?;
    put_word(text, word)
}

/// A node and a number.
pub(crate) fn put_node_number(
    text: &mut Text,
    names: &[Text],
    node: u32,
    n: u32,
) -> Result<(), Memory>
    requires { node < length names.now }
    ensures { OnOk result (text.new ≡ text.old
        ++ spaced (node_word names.now node ∷ decimal n ∷ [])) }
{
    put_node(text, names, node)?;
    put_number(text, n)
}

/// A node and a gain.
pub(crate) fn put_node_gain(
    text: &mut Text,
    names: &[Text],
    node: u32,
    g: i32,
) -> Result<(), Memory>
    requires { node < length names.now }
    ensures { OnOk result (text.new ≡ text.old
        ++ spaced (node_word names.now node ∷ signed_decimal g ∷ [])) }
{
    put_node(text, names, node)?;
    put_integer(text, g)
}

// Two gains.
fn put_gains(text: &mut Text, a: i32, b: i32) -> Result<(), Memory>
    ensures { OnOk result (text.new ≡ text.old
        ++ spaced (signed_decimal a ∷ signed_decimal b ∷ [])) }
{
    put_integer(text, a)?;
    put_integer(text, b)
}

/// A node and two gains.
pub(crate) fn put_mix2(
    text: &mut Text,
    names: &[Text],
    node: u32,
    a: i32,
    b: i32,
) -> Result<(), Memory>
    requires { node < length names.now }
    ensures { OnOk result (text.new ≡ text.old
        ++ spaced (node_word names.now node ∷ signed_decimal a ∷ signed_decimal b ∷ [])) }
{
    put_node(text, names, node)?;
    put_gains(text, a, b)
}

// The period and the amplitude of a square.
fn put_wave(text: &mut Text, period: u32, amp: i32) -> Result<(), Memory>
    ensures { OnOk result (text.new ≡ text.old
        ++ spaced (decimal period ∷ signed_decimal amp ∷ [])) }
{
    put_number(text, period)?;
    put_integer(text, amp)
}

// The numbers of a square but its rate.
fn put_shape(text: &mut Text, channels: u32, period: u32, amp: i32) -> Result<(), Memory>
    ensures { OnOk result (text.new ≡ text.old
        ++ spaced (decimal channels ∷ decimal period ∷ signed_decimal amp ∷ [])) }
{
    put_number(text, channels)?;
    put_wave(text, period, amp)
}

// The numbers of a square.
fn put_numbers(
    text: &mut Text,
    rate: u32,
    channels: u32,
    period: u32,
    amp: i32,
) -> Result<(), Memory>
    ensures { OnOk result (text.new ≡ text.old
        ++ spaced (decimal rate ∷ decimal channels ∷ decimal period ∷ signed_decimal amp
        ∷ [])) }
{
    put_number(text, rate)?;
    put_shape(text, channels, period, amp)
}

// The channels and the list of a map.
fn put_channels(text: &mut Text, channels: u32, list: &[u32]) -> Result<(), Memory>
    ensures { OnOk result (text.new ≡ text.old
        ++ spaced (decimal channels ∷ list_word list.now ∷ [])) }
{
    put_number(text, channels)?;
    put_list(text, list)
}

/// A node, and the channels and the list of a map.
pub(crate) fn put_map(
    text: &mut Text,
    names: &[Text],
    node: u32,
    channels: u32,
    list: &[u32],
) -> Result<(), Memory>
    requires { node < length names.now }
    ensures { OnOk result (text.new ≡ text.old
        ++ spaced (node_word names.now node ∷ decimal channels ∷ list_word list.now ∷ [])) }
{
    put_node(text, names, node)?;
    put_channels(text, channels, list)
}

/// A node, and the numbers of a square.
pub(crate) fn put_square(
    text: &mut Text,
    names: &[Text],
    node: u32,
    rate: u32,
    channels: u32,
    period: u32,
    amp: i32,
) -> Result<(), Memory>
    requires { node < length names.now }
    ensures { OnOk result (text.new ≡ text.old ++ spaced (node_word names.now node
        ∷ decimal rate ∷ decimal channels ∷ decimal period ∷ signed_decimal amp ∷ [])) }
{
    put_node(text, names, node)?;
    put_numbers(text, rate, channels, period, amp)
}
