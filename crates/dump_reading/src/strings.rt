//! The bytes of a string, of which some are escaped.
ghost use Rattle.std.specs.Prelude.{◌≡◌, ◌<◌, OnOk, IfOk, IfSome};
ghost use Rattle.pod_codec.specs.DumpWords.{is_plain};
ghost use Rattle.dump_reading.specs.working.Strings.{step, pushed, string_said, quoted_said};
ghost use Rattle.dump_reading.specs.working.Escapes.{IsEscape};

use crate::bytes::{digit_said, unquoted};
use pw_lists::{Items, Memory, Text};
use std::alloc::Global;

/// Where a string is: outside of an escape, after its backslash, after its `x`, or after its
/// first digit.
#[derive(Clone, Copy, Drop)]
pub(crate) enum Escape {
    Outside,
    Slash,
    Mark,
    High(u8),
}

// Whether a byte is shown as it is.
fn is_plain(b: u8) -> bool
    ensures { result ≡ is_plain b }
{
    b >= 0x20 && b <= 0x7E && b != b'"' && b != b'\\'
}

// Outside of an escape.
fn outside(b: u8) -> Option<(Escape, Option<u8>)>
    ensures said { result ≡ step Escape.Outside b }
    ensures sound { IfSome result (λ n. IsEscape n.0) }
{
    if b == b'\\' {
        Some((Escape::Slash, None))
    } else if is_plain(b) {
        Some((Escape::Outside, Some(b)))
    } else {
        None
    }
}

// After a backslash.
fn behind_slash(b: u8) -> Option<(Escape, Option<u8>)>
    ensures said { result ≡ step Escape.Slash b }
    ensures sound { IfSome result (λ n. IsEscape n.0) }
{
    if b == b'x' {
        Some((Escape::Mark, None))
    } else {
        None
    }
}

// After `\x`.
fn behind_mark(b: u8) -> Option<(Escape, Option<u8>)>
    ensures said { result ≡ step Escape.Mark b }
    ensures sound { IfSome result (λ n. IsEscape n.0) }
{
    match digit_said(b) {
        None => None,
        Some(high) => Some((Escape::High(high), None)),
    }
}

// After the first digit.
fn behind_high(high: u8, b: u8) -> Option<(Escape, Option<u8>)>
    requires { high < 16 }
    ensures said { result ≡ step (Escape.High high) b }
    ensures sound { IfSome result (λ n. IsEscape n.0) }
{
    match digit_said(b) {
        None => None,
        Some(low) => {
            let byte = 16 * high + low;
            if is_plain(byte) {
                None
            } else {
                Some((Escape::Outside, Some(byte)))
            }
        }
    }
}

// The next byte: where the string is after it, and the byte that is whole with it.
fn step(state: Escape, b: u8) -> Option<(Escape, Option<u8>)>
    requires { IsEscape state }
    ensures said { result ≡ step state b }
    ensures sound { IfSome result (λ n. IsEscape n.0) }
{
    match state {
        Escape::Outside => outside(b),
        Escape::Slash => behind_slash(b),
        Escape::Mark => behind_mark(b),
        Escape::High(high) => behind_high(high, b),
    }
}

// Appends a byte, if there is one.
fn push_byte(bytes: &mut Text, byte: Option<u8>) -> Result<(), Memory>
    ensures { OnOk result (bytes.new ≡ pushed bytes.old byte) }
{
    match byte {
        None => Ok(()),
        Some(b) => bytes.push(b),
    }
}

/// The bytes of a string; nothing where the text is no string.
#[tactic(auto, unfolding(crate::specs::working::Strings::string_said))]
fn string_said(alloc: Global, text: &[u8]) -> Result<Option<Text>, Memory>
    ensures { IfOk result (λ bytes. bytes ≡ string_said text.now) }
{
    let mut bytes = Items::new(alloc);
    let mut state = Escape::Outside;
    for b in text {
        match step(state, *b) {
            None => return Ok(None),
            Some((next, byte)) => {
                state = next;
                push_byte(&mut bytes, byte)?;
            }
        }
    }
    match state {
        Escape::Outside => Ok(Some(bytes)),
        _ => Ok(None),
    }
}

/// The bytes of a string between quotes.
#[tactic(auto, unfolding(crate::specs::working::Strings::quoted_said))]
pub(crate) fn quoted_said(alloc: Global, args: &[u8]) -> Result<Option<Text>, Memory>
    ensures { IfOk result (λ bytes. bytes ≡ quoted_said args.now) }
{
    match unquoted(args) {
        None => Ok(None),
        Some(text) => string_said(alloc, text),
    }
}
