//! The words after `format`.
ghost use Rattle.std.specs.Prelude.{◌≡◌, map, string_bytes, Ok, IfOk};
ghost use Rattle.format_filter.specs.Soundness.{IsSound};
ghost use Rattle.pod_text.specs.Offers.{offer_of};
ghost use Rattle.pod_text.specs.Words.{HasSoundFormat};
ghost use Rattle.command_frame.specs.Words.{IsAsked};
ghost use Rattle.pod_text.specs.FormatWords as said;
ghost use Rattle.pod_text.specs.Alone as words;
ghost use Rattle.pod_text.specs.declared.words.Request.TheVariants as R;

use crate::choices::choice_said;
use crate::offers::offer_of;
use crate::words::{Request, is_file_word};
use command_frame::Misread;
use format_filter::Choice;
use pw_lists::Items;
use std::alloc::Global;

/// The flag of a property that the other side must have. Source: `spa/pod/pod.h`.
const MANDATORY: u32 = 8;

/// The key that the other side of a link must have.
#[derive(Clone, Copy, Drop)]
pub(crate) enum Key {
    None,
    Rate,
    Channels,
}

// The request of a format.
fn format_request(
    alloc: Global,
    to: &String,
    rate: Choice,
    channels: Choice,
    rate_flags: u32,
    channels_flags: u32,
) -> Result<Request, Misread>
    requires { IsSound rate × IsSound channels }
    ensures read { IsAsked (Ok (R.Format (string_bytes to.now)
        (offer_of rate channels rate_flags channels_flags))) result }
    ensures sound { IfOk result HasSoundFormat }
{
    match offer_of(alloc, rate, channels, rate_flags, channels_flags) {
        Err(_memory) => Err(Misread::Memory),
        Ok(format) => match Items::from_slice(alloc, to.as_bytes()) {
            Ok(to) => Ok(Request::Format { to, format }),
            Err(_memory) => Err(Misread::Memory),
        },
    }
}

// The request of a key, if nothing is after its words.
fn alone(
    alloc: Global,
    to: &String,
    rate: Choice,
    channels: Choice,
    key: Key,
    rest: &[String],
) -> Result<Request, Misread>
    requires { IsSound rate × IsSound channels }
    ensures read { IsAsked (words.alone 8 (map string_bytes rest.now)
        (said.offered (string_bytes to.now) rate channels key)) result }
    ensures sound { IfOk result HasSoundFormat }
{
    if !rest.is_empty() {
        return Err(Misread::Word(8));
    }
    match key {
        Key::None => format_request(alloc, to, rate, channels, 0, 0),
        Key::Rate => format_request(alloc, to, rate, channels, MANDATORY, 0),
        Key::Channels => format_request(alloc, to, rate, channels, 0, MANDATORY),
    }
}

// The key that a word names.
fn key_of(word: &String) -> Option<Key>
    ensures { result ≡ said.key_of (string_bytes word.now) }
{
    let bytes = word.as_bytes();
    if bytes == b"rate".as_slice() {
        Some(Key::Rate)
    } else if bytes == b"channels".as_slice() {
        Some(Key::Channels)
    } else {
        None
    }
}

// The key after `mandatory`.
fn read_key(
    alloc: Global,
    to: &String,
    rate: Choice,
    channels: Choice,
    rest: &[String],
) -> Result<Request, Misread>
    requires { IsSound rate × IsSound channels }
    ensures read { IsAsked (said.key_behind (string_bytes to.now) rate channels
        (map string_bytes rest.now)) result }
    ensures sound { IfOk result HasSoundFormat }
{
    match rest {
        [] => Err(Misread::Word(7)),
        [word, more @ ..] => match key_of(word) {
            None => Err(Misread::Word(7)),
            Some(key) => alone(alloc, to, rate, channels, key, more),
        },
    }
}

// The words after the channels.
fn read_mandatory(
    alloc: Global,
    to: &String,
    rate: Choice,
    channels: Choice,
    rest: &[String],
) -> Result<Request, Misread>
    requires { IsSound rate × IsSound channels }
    ensures read { IsAsked (said.mandatory_behind (string_bytes to.now) rate channels
        (map string_bytes rest.now)) result }
    ensures sound { IfOk result HasSoundFormat }
{
    match rest {
        [] => alone(alloc, to, rate, channels, Key::None, rest),
        [name, more @ ..] => {
            if name.as_bytes() == b"mandatory".as_slice() {
                read_key(alloc, to, rate, channels, more)
            } else {
                Err(Misread::Word(6))
            }
        }
    }
}

// The word after `channels`.
fn read_channels(
    alloc: Global,
    to: &String,
    rate: Choice,
    rest: &[String],
) -> Result<Request, Misread>
    requires { IsSound rate }
    ensures read { IsAsked (said.channels_behind (string_bytes to.now) rate
        (map string_bytes rest.now)) result }
    ensures sound { IfOk result HasSoundFormat }
{
    match rest {
        [] => Err(Misread::Word(5)),
        [word, more @ ..] => match choice_said(alloc, word.as_bytes()) {
            Err(_memory) => Err(Misread::Memory),
            Ok(None) => Err(Misread::Word(5)),
            Ok(Some(channels)) => read_mandatory(alloc, to, rate, channels, more),
        },
    }
}

// The words after the rate.
fn read_second(
    alloc: Global,
    to: &String,
    rate: Choice,
    rest: &[String],
) -> Result<Request, Misread>
    requires { IsSound rate }
    ensures read { IsAsked (said.second_behind (string_bytes to.now) rate
        (map string_bytes rest.now)) result }
    ensures sound { IfOk result HasSoundFormat }
{
    match rest {
        [] => Err(Misread::Word(4)),
        [name, more @ ..] => {
            if name.as_bytes() == b"channels".as_slice() {
                read_channels(alloc, to, rate, more)
            } else {
                Err(Misread::Word(4))
            }
        }
    }
}

// The word after `rate`.
fn read_rate(alloc: Global, to: &String, rest: &[String]) -> Result<Request, Misread>
    ensures read { IsAsked (said.rate_behind (string_bytes to.now) (map string_bytes rest.now))
        result }
    ensures sound { IfOk result HasSoundFormat }
{
    match rest {
        [] => Err(Misread::Word(3)),
        [word, more @ ..] => match choice_said(alloc, word.as_bytes()) {
            Err(_memory) => Err(Misread::Memory),
            Ok(None) => Err(Misread::Word(3)),
            Ok(Some(rate)) => read_second(alloc, to, rate, more),
        },
    }
}

// The words after the file.
fn read_first(alloc: Global, to: &String, rest: &[String]) -> Result<Request, Misread>
    ensures read { IsAsked (said.first_behind (string_bytes to.now) (map string_bytes rest.now))
        result }
    ensures sound { IfOk result HasSoundFormat }
{
    match rest {
        [] => Err(Misread::Word(2)),
        [name, more @ ..] => {
            if name.as_bytes() == b"rate".as_slice() {
                read_rate(alloc, to, more)
            } else {
                Err(Misread::Word(2))
            }
        }
    }
}

/// The words after `format`.
pub(crate) fn read_format_words(alloc: Global, rest: &[String]) -> Result<Request, Misread>
    ensures read { IsAsked (said.format_behind (map string_bytes rest.now)) result }
    ensures sound { IfOk result HasSoundFormat }
{
    match rest {
        [] => Err(Misread::Word(1)),
        [to, more @ ..] => {
            if is_file_word(to) {
                read_first(alloc, to, more)
            } else {
                Err(Misread::Word(1))
            }
        }
    }
}
