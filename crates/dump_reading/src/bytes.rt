//! Bytes as digits of base 16.
ghost use Rattle.std.specs.Prelude.{◌≡◌, ◌<◌, IfOk, IfSome, option_copied};
ghost use Rattle.dump_reading.specs.working.Bytes.{digit_said, byte_said, hex_said, four_said, eight_said};
ghost use Rattle.dump_reading.specs.working.Bytes.{float_said, double_said, unquoted, quoted_hex_said};

use crate::cutting::cut;
use pw_lists::{Items, Memory, Text};
use std::alloc::Global;

/// A lower-case digit of base 16.
#[tactic(auto, unfolding(crate::specs::working::Bytes::digit_said))]
pub(crate) fn digit_said(c: u8) -> Option<u8>
    ensures said { result ≡ digit_said c }
    ensures small { IfSome result (λ n. n < 16) }
{
    match c {
        b'0'..=b'9' => Some(c - b'0'),
        b'a'..=b'f' => Some(c - 0x57),
        _ => None,
    }
}

// A byte, of two digits.
#[tactic(auto, unfolding(crate::specs::working::Bytes::byte_said))]
fn byte_said(high: u8, low: u8) -> Option<u8>
    ensures { result ≡ byte_said high low }
{
    match digit_said(high) {
        None => None,
        Some(h) => match digit_said(low) {
            None => None,
            Some(l) => Some(16 * h + l),
        },
    }
}

/// Bytes of two digits each; nothing where the text is no such row.
#[tactic(auto, unfolding(crate::specs::working::Bytes::hex_said))]
pub(crate) fn hex_said(alloc: Global, digits: &[u8]) -> Result<Option<Text>, Memory>
    ensures { IfOk result (λ bytes. bytes ≡ hex_said digits.now) }
{
    let mut bytes = Items::new(alloc);
    let mut rest = digits;
    'bytes: while let [high, low, more @ ..] = rest {
        match byte_said(*high, *low) {
            None => return Ok(None),
            Some(b) => bytes.push(b)?,
        }
        rest = more;
    }
    if rest.is_empty() {
        Ok(Some(bytes))
    } else {
        Ok(None)
    }
}

// The 32 bits of four bytes.
fn four_said(bytes: &[u8]) -> Option<u32>
    ensures { result ≡ four_said bytes.now }
{
    if bytes.len() != 4 {
        return None;
    }
    Some(u32::from_be_bytes([bytes[0], bytes[1], bytes[2], bytes[3]]))
}

// The 64 bits of eight bytes.
fn eight_said(bytes: &[u8]) -> Option<u64>
    ensures { result ≡ eight_said bytes.now }
{
    if bytes.len() != 8 {
        return None;
    }
    Some(u64::from_be_bytes([
        bytes[0], bytes[1], bytes[2], bytes[3], bytes[4], bytes[5], bytes[6], bytes[7],
    ]))
}

/// The 32 bits of eight digits.
#[tactic(auto, unfolding(crate::specs::working::Bytes::float_said))]
pub(crate) fn float_said(alloc: Global, digits: &[u8]) -> Result<Option<u32>, Memory>
    ensures { IfOk result (λ bits. bits ≡ float_said digits.now) }
{
    match hex_said(alloc, digits)? {
        None => Ok(None),
        Some(bytes) => Ok(four_said(bytes.as_slice())),
    }
}

/// The 64 bits of sixteen digits.
#[tactic(auto, unfolding(crate::specs::working::Bytes::double_said))]
pub(crate) fn double_said(alloc: Global, digits: &[u8]) -> Result<Option<u64>, Memory>
    ensures { IfOk result (λ bits. bits ≡ double_said digits.now) }
{
    match hex_said(alloc, digits)? {
        None => Ok(None),
        Some(bytes) => Ok(eight_said(bytes.as_slice())),
    }
}

/// What is between two quotes, of which the second ends the text.
#[tactic(auto, unfolding(crate::specs::working::Bytes::unquoted))]
pub(crate) fn unquoted(args: &[u8]) -> Option<&[u8]>
    ensures { option_copied result ≡ unquoted args.now }
{
    match args {
        [] => None,
        [first, rest @ ..] => {
            if *first == b'"' {
                match cut(rest, b'"') {
                    None => None,
                    Some((inner, after)) => { if after.is_empty() { Some(inner) } else { None } }
                }
            } else {
                None
            }
        }
    }
}

/// Bytes of two digits each between quotes.
#[tactic(auto, unfolding(crate::specs::working::Bytes::quoted_hex_said))]
pub(crate) fn quoted_hex_said(alloc: Global, args: &[u8]) -> Result<Option<Text>, Memory>
    ensures { IfOk result (λ bytes. bytes ≡ quoted_hex_said args.now) }
{
    match unquoted(args) {
        None => Ok(None),
        Some(digits) => hex_said(alloc, digits),
    }
}
