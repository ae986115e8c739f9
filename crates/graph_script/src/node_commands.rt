//! The commands that make a node without a file and without a list: their meaning takes no memory
//! but for the name.
ghost use Rattle.std.specs.Prelude.{◌≡◌};
ghost use Rattle.graph_script.specs.Lexical.{words_of};
ghost use Rattle.graph_script.specs.Checked.{checked_map};
ghost use Rattle.graph_script.specs.NodeCommands as commands;
ghost use Rattle.graph_script.specs.working.Progress.{parsed_of};
ghost use Rattle.graph_script.specs.working.Sound.{IsSound};

use crate::arguments::{five_words, one_word, three_words, two_words};
use crate::command::Command;
use crate::fault::ScriptWhy;
use crate::new_nodes::making;
use crate::nodes::new_node;
use crate::numbers::{integer_in, number_in};
use crate::reading::{NewNode, Reading};
use pw_graph::Kind;
use pw_lists::{AMP_LIMIT, CHANNELS_LIMIT, DELAY_LIMIT, GAIN_LIMIT, PERIOD_LIMIT, RATE_LIMIT};

/// `square NAME RATE CHANNELS PERIOD AMP`
pub(crate) fn square<'a>(reading: &Reading, args: &'a [u8]) -> Result<NewNode<'a>, ScriptWhy>
    requires { IsSound reading.now }
    ensures { checked_map parsed_of result ≡ commands.square_of reading.now (words_of args.now) }
{
    let (name, rate, channels, period, amp) = five_words(args)?;
    let node = new_node(reading, name)?;
    let rate = number_in(rate, 1, RATE_LIMIT)?;
    let channels = number_in(channels, 1, CHANNELS_LIMIT)?;
    let period = number_in(period, 1, PERIOD_LIMIT)?;
    let amp = number_in(amp, 0, AMP_LIMIT)? as i32;
    let command = Command::Square {
        node,
        rate,
        channels,
        period,
        amp,
    };
    let kind = Kind::Square {
        rate,
        channels,
        period,
        amp,
    };
    making(reading, command, name, kind)
}

/// `gain NAME G`
pub(crate) fn gain<'a>(reading: &Reading, args: &'a [u8]) -> Result<NewNode<'a>, ScriptWhy>
    requires { IsSound reading.now }
    ensures { checked_map parsed_of result ≡ commands.gain_of reading.now (words_of args.now) }
{
    let (name, g) = two_words(args)?;
    let node = new_node(reading, name)?;
    let g = integer_in(g, GAIN_LIMIT)?;
    making(reading, Command::Gain { node, g }, name, Kind::Gain { g })
}

/// `mix2 NAME GA GB`
pub(crate) fn mix2<'a>(reading: &Reading, args: &'a [u8]) -> Result<NewNode<'a>, ScriptWhy>
    requires { IsSound reading.now }
    ensures { checked_map parsed_of result ≡ commands.mix2_of reading.now (words_of args.now) }
{
    let (name, ga, gb) = three_words(args)?;
    let node = new_node(reading, name)?;
    let ga = integer_in(ga, GAIN_LIMIT)?;
    let gb = integer_in(gb, GAIN_LIMIT)?;
    making(
        reading,
        Command::Mix2 { node, ga, gb },
        name,
        Kind::Mix2 { ga, gb },
    )
}

/// `delay NAME FRAMES`
pub(crate) fn delay<'a>(reading: &Reading, args: &'a [u8]) -> Result<NewNode<'a>, ScriptWhy>
    requires { IsSound reading.now }
    ensures { checked_map parsed_of result ≡ commands.delay_of reading.now (words_of args.now) }
{
    let (name, frames) = two_words(args)?;
    let node = new_node(reading, name)?;
    let frames = number_in(frames, 0, DELAY_LIMIT)?;
    making(
        reading,
        Command::Delay { node, frames },
        name,
        Kind::Delay { frames },
    )
}

/// `split NAME`
pub(crate) fn split<'a>(reading: &Reading, args: &'a [u8]) -> Result<NewNode<'a>, ScriptWhy>
    requires { IsSound reading.now }
    ensures { checked_map parsed_of result ≡ commands.split_of reading.now (words_of args.now) }
{
    let name = one_word(args)?;
    let node = new_node(reading, name)?;
    making(reading, Command::Split { node }, name, Kind::Split)
}

/// `meter NAME`
pub(crate) fn meter<'a>(reading: &Reading, args: &'a [u8]) -> Result<NewNode<'a>, ScriptWhy>
    requires { IsSound reading.now }
    ensures { checked_map parsed_of result ≡ commands.meter_of reading.now (words_of args.now) }
{
    let name = one_word(args)?;
    let node = new_node(reading, name)?;
    making(reading, Command::Meter { node }, name, Kind::Meter)
}
