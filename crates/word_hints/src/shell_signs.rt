//! Signs of the shell in the name of a file.
ghost use Rattle.std.specs.Prelude.{◌≡◌};
ghost use Rattle.std.specs.List.{list_any};
ghost use Rattle.word_hints.specs.ShellSigns.{is_quote, is_dollar, shell_hint};

fn has_quote(name: &[u8]) -> bool
    ensures { result ≡ list_any is_quote name.now }
{
    name.iter().any(|b| *b == b'"' || *b == b'\'')
}

fn has_dollar(name: &[u8]) -> bool
    ensures { result ≡ list_any is_dollar name.now }
{
    name.iter().any(|b| *b == b'$')
}

/// What is said behind a sentence of a file that is not there: that a sign which a shell takes
/// otherwise is a part of its name, quotes before `~` at its beginning, and that before `$`;
/// nothing where none is. Takes no memory; time linear in the name.
pub fn shell_hint(name: &[u8]) -> &'static [u8]
    ensures { result.now ≡ shell_hint name.now }
{
    if has_quote(name) {
        b"; quotes are a part of the name"
    } else if name.starts_with(b"~") {
        b"; ~ is a part of the name, no folder"
    } else if has_dollar(name) {
        b"; $ is a part of the name, no value stands for it"
    } else {
        b""
    }
}
