//! The lines of the script, each at the end of a text, with its line feed. After `Memory` the text
//! has a part of it.
ghost use Rattle.std.specs.Prelude.{◌≡◌, ◌<◌, ◌++◌, OnOk};
ghost use Rattle.std.specs.Fmt.{signed_decimal};
ghost use Rattle.soak_graph.specs.SoakChains.{chains};
ghost use Rattle.soak_graph.specs.SoakText.{digit, ended, source_line, gain_line, delay_line};
ghost use Rattle.soak_graph.specs.SoakText.{gain_link, delay_link, text_of_lines, chain_lines, end_lines, link_lines, play_lines};

use pw_lists::{Memory, Text, append_decimal};

// The number of a chain, between two pieces of a line.
fn put_chain_number(text: &mut Text, before: &[u8], i: u32, after: &[u8]) -> Result<(), Memory>
    requires { i < chains }
    ensures { OnOk result (text.new ≡ text.old ++ before.now ++ digit i ++ after.now) }
{
    text.extend(before)?;
    text.push(b'0' + i as u8)?;
    text.extend(after)
}

// The number of a chain twice, between three pieces of a line.
fn put_twice(
    text: &mut Text,
    before: &[u8],
    i: u32,
    between: &[u8],
    after: &[u8],
) -> Result<(), Memory>
    requires { i < chains }
    ensures { OnOk result
        (text.new ≡ text.old
        ++ (before.now ++ digit i ++ between.now ++ digit i ++ after.now)) }
{
    put_chain_number(text, before, i, between)?;
    put_chain_number(text, b"", i, after)
}

/// A number that may have a sign.
pub(crate) fn put_integer(text: &mut Text, n: i64) -> Result<(), Memory>
    ensures { OnOk result (text.new ≡ text.old ++ signed_decimal n) }
{
    if n < 0 {
        text.extend(b"-")?;
    }
    append_decimal(text, n.unsigned_abs())
}

fn put_source(text: &mut Text, i: u32) -> Result<(), Memory>
    requires { i < chains }
    ensures { OnOk result (text.new ≡ text.old ++ ended (source_line i)) }
{
    put_twice(text, b"source s", i, b" s", b".wav\n")
}

fn put_gain(text: &mut Text, i: u32, g: i32) -> Result<(), Memory>
    requires { i < chains }
    ensures { OnOk result (text.new ≡ text.old ++ ended (gain_line i g)) }
{
    put_chain_number(text, b"gain g", i, b" ")?;
    put_integer(text, i64::from(g))?;
    text.extend(b"\n")
}

fn put_delay(text: &mut Text, i: u32, d: u32) -> Result<(), Memory>
    requires { i < chains }
    ensures { OnOk result (text.new ≡ text.old ++ ended (delay_line i d)) }
{
    put_chain_number(text, b"delay d", i, b" ")?;
    append_decimal(text, u64::from(d))?;
    text.extend(b"\n")
}

/// The nodes of a chain.
pub(crate) fn put_chain(text: &mut Text, i: u32, g: i32, d: u32) -> Result<(), Memory>
    requires { i < chains }
    ensures { OnOk result (text.new ≡ text.old ++ text_of_lines (chain_lines i g d)) }
{
    put_source(text, i)?;
    put_gain(text, i, g)?;
    put_delay(text, i, d)
}

/// Where all chains end.
pub(crate) fn put_ends(text: &mut Text) -> Result<(), Memory>
    ensures { OnOk result (text.new ≡ text.old ++ text_of_lines end_lines) }
{
    text.extend(b"sink mix mix.wav\nmeter level\ndriver mix 1\n")
}

fn put_gain_link(text: &mut Text, i: u32) -> Result<(), Memory>
    requires { i < chains }
    ensures { OnOk result (text.new ≡ text.old ++ ended (gain_link i)) }
{
    put_twice(text, b"link s", i, b".out g", b".in\n")
}

fn put_delay_link(text: &mut Text, i: u32) -> Result<(), Memory>
    requires { i < chains }
    ensures { OnOk result (text.new ≡ text.old ++ ended (delay_link i)) }
{
    put_twice(text, b"link g", i, b".out d", b".in\n")
}

/// The links of a chain.
pub(crate) fn put_links(text: &mut Text, i: u32) -> Result<(), Memory>
    requires { i < chains }
    ensures { OnOk result (text.new ≡ text.old ++ text_of_lines (link_lines i)) }
{
    put_gain_link(text, i)?;
    put_delay_link(text, i)?;
    put_chain_number(text, b"link d", i, b".out mix.in\n")?;
    put_chain_number(text, b"link d", i, b".out level.in\n")
}

/// The run, in which the source of a chain is off for a while.
pub(crate) fn put_play(text: &mut Text, k: u32) -> Result<(), Memory>
    requires { k < chains }
    ensures { OnOk result (text.new ≡ text.old ++ text_of_lines (play_lines k)) }
{
    put_chain_number(text, b"cycles 100\noff s", k, b"\ncycles 50\n")?;
    put_chain_number(text, b"on s", k, b"\ndrain\n")
}
