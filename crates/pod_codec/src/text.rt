//! Words and numbers at the end of a text.
ghost use Rattle.std.specs.Prelude.{◌≡◌, ◌++◌, codes, OnOk};
ghost use Rattle.std.specs.List.{flat_map};
ghost use Rattle.std.specs.Fmt.{signed_decimal};
ghost use Rattle.pod_codec.specs.DumpWords.{hex_digits, hex, escaped, numbered, two_numbered, quoted};

use pw_lists::{Memory, Text, append_decimal};

const HEX: [u8; 16] = *b"0123456789abcdef";

/// Appends a word and a number.
pub fn put_number(word: &[u8], n: u64, text: &mut Text) -> Result<(), Memory>
    ensures { OnOk result (text.new ≡ text.old ++ numbered word.now n) }
{
    text.extend(word)?;
    append_decimal(text, n)
}

/// Appends a word, a number, a mark and another number.
#[tactic(auto, unfolding(crate::specs::DumpWords::two_numbered))]
pub fn put_numbers(word: &[u8], n: u64, mark: &[u8], m: u64, text: &mut Text) -> Result<(), Memory>
    ensures { OnOk result (text.new ≡ text.old ++ two_numbered word.now n mark.now m) }
{
    put_number(word, n, text)?;
    put_number(mark, m, text)
}

/// Appends a signed number.
fn put_signed_digits(n: i64, text: &mut Text) -> Result<(), Memory>
    ensures { OnOk result (text.new ≡ text.old ++ signed_decimal n) }
{
    if n < 0 {
        put_number(b"-".as_slice(), n.unsigned_abs(), text)
    } else {
        put_number(b"".as_slice(), n.unsigned_abs(), text)
    }
}

/// Appends a word and a signed number.
pub fn put_signed(word: &[u8], n: i64, text: &mut Text) -> Result<(), Memory>
    ensures { OnOk result (text.new ≡ text.old ++ (word.now ++ signed_decimal n)) }
{
    text.extend(word)?;
    put_signed_digits(n, text)
}

/// Two lower-case digits.
#[tactic(auto, unfolding(crate::specs::DumpWords::hex_digits))]
fn digits_of(byte: u8) -> [u8; 2]
    ensures { result ≡ hex_digits byte }
{
    [HEX[(byte / 16) as usize], HEX[(byte % 16) as usize]]
}

/// Appends two digits for each byte.
fn put_hex_digits(bytes: &[u8], text: &mut Text) -> Result<(), Memory>
    ensures { OnOk result (text.new ≡ text.old ++ hex bytes.now) }
{
    for byte in bytes {
        text.extend(&digits_of(*byte))?;
    }
    Ok(())
}

/// Appends a word, and two digits for each byte.
pub fn put_hex(word: &[u8], bytes: &[u8], text: &mut Text) -> Result<(), Memory>
    ensures { OnOk result (text.new ≡ text.old ++ (word.now ++ hex bytes.now)) }
{
    text.extend(word)?;
    put_hex_digits(bytes, text)
}

/// Appends a word, two digits for each byte, and a quote.
pub fn put_quoted_hex(word: &[u8], bytes: &[u8], text: &mut Text) -> Result<(), Memory>
    ensures { OnOk result (text.new ≡ text.old ++ quoted word.now (hex bytes.now)) }
{
    put_hex(word, bytes, text)?;
    text.extend(b"\"".as_slice())
}

/// Appends a byte of a string.
#[tactic(auto, unfolding(crate::specs::DumpWords::escaped))]
fn put_byte(byte: u8, text: &mut Text) -> Result<(), Memory>
    ensures { OnOk result (text.new ≡ text.old ++ escaped byte) }
{
    if byte >= 0x20 && byte <= 0x7E && byte != b'"' && byte != b'\\' {
        return text.extend(&[byte]);
    }
    text.extend(b"\\x".as_slice())?;
    text.extend(&digits_of(byte))
}

/// Appends the bytes of a string.
fn put_bytes(bytes: &[u8], text: &mut Text) -> Result<(), Memory>
    ensures { OnOk result (text.new ≡ text.old ++ flat_map escaped bytes.now) }
{
    for byte in bytes {
        put_byte(*byte, text)?;
    }
    Ok(())
}

/// Appends a word, the bytes of a string, and a quote.
pub fn put_quoted(word: &[u8], bytes: &[u8], text: &mut Text) -> Result<(), Memory>
    ensures { OnOk result (text.new ≡ text.old ++ quoted word.now (flat_map escaped bytes.now)) }
{
    text.extend(word)?;
    put_bytes(bytes, text)?;
    text.extend(b"\"".as_slice())
}
