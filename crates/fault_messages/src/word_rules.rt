//! Which word of a line is at fault by its form or its range, and what it has to be.
ghost use Rattle.std.specs.Prelude.{◌≡◌, ◌++◌, is_some, option_map, OnOk};
ghost use Rattle.graph_script.specs.Arguments.{number_of, integer_of};
ghost use Rattle.graph_script.specs.Lexical.{words_of};
ghost use Rattle.fault_messages.specs.WordRules.{is_unfit, first_unfit, unfit_of, unfit_in};
ghost use Rattle.fault_messages.specs.WordRules.{counted_text, example_of, range_of, rule_of};

use crate::name_rules::{end_rule, is_end, is_node_name};
use crate::putting::{put_number, put_two_numbers};
use graph_script::{
    Counted, Form, Label, Name, Param, label_word, name_called, next_word, number_within, params_of,
};
use pw_lists::{CHANNELS_LIMIT, Memory, Text};

/// The bytes of a file word.
const FILE_BYTES_LIMIT: usize = 255;

fn is_number(low: u32, high: u32, word: &[u8]) -> bool
    ensures { result ≡ is_some (number_of low high word.now) }
{
    number_within(word, low, high).is_some()
}

// Whether it is a gain, which may have a sign.
#[tactic(auto, using(crate::proofs::WordLemmas::is_some_mapped))]
fn is_gain(high: u32, word: &[u8]) -> bool
    ensures { result ≡ is_some (integer_of high word.now) }
{
    match word {
        [] => false,
        [first, digits @ ..] => {
            if *first == b'-' {
                is_number(1, high, digits)
            } else {
                is_number(0, high, word)
            }
        }
    }
}

// Whether a word has not the form and the range of its parameter; a list is looked at last, and a
// port by the node before it.
fn is_unfit(form: Form, word: &[u8]) -> bool
    ensures { result ≡ is_unfit form word.now }
{
    match form {
        Form::New | Form::Node => !is_node_name(word),
        Form::Number { low, high, .. } => !is_number(low, high, word),
        Form::Gain { high } => !is_gain(high, word),
        Form::Channels => true,
        Form::File => FILE_BYTES_LIMIT < word.len(),
        Form::Port => false,
        Form::Output | Form::Input => !is_end(word),
    }
}

// The first such word, with its parameter.
fn first_unfit<'a>(params: &[Param], args: &'a [u8]) -> Option<(Param, &'a [u8])>
    ensures { option_map (λ unfit. (unfit.0, unfit.1.now)) result
        ≡ first_unfit params.now (words_of args.now) }
{
    let mut rest = params;
    let mut text = args;
    loop {
        match rest {
            [] => return None,
            [param, more @ ..] => match next_word(text) {
                None => return None,
                Some((word, after)) => {
                    if is_unfit(param.form, word) {
                        return Some((*param, word));
                    }
                    rest = more;
                    text = after;
                }
            },
        }
    }
}

// That of a command with these arguments.
fn unfit_of<'a>(name: Option<Name>, args: &'a [u8]) -> Option<(Param, &'a [u8])>
    ensures { option_map (λ unfit. (unfit.0, unfit.1.now)) result
        ≡ unfit_of name (words_of args.now) }
{
    match name {
        None => None,
        Some(name) => first_unfit(params_of(name), args),
    }
}

/// The word at fault of a line, with its parameter, where a number, a name, an end or a file is at
/// fault. Takes no memory.
pub fn unfit_in(line: &[u8]) -> Option<(Param, &[u8])>
    ensures { option_map (λ unfit. (unfit.0, unfit.1.now)) result ≡ unfit_in (words_of line.now) }
{
    match next_word(line) {
        None => None,
        Some((name, args)) => unfit_of(name_called(name), args),
    }
}

// What a number counts.
fn counted_text(counted: Counted) -> &'static [u8]
    ensures { result.now ≡ counted_text counted }
{
    match counted {
        Counted::Unsaid => b"",
        Counted::Frames => b" frames",
        Counted::FramesASecond => b" frames a second",
    }
}

// An example of a number.
fn example_of(label: Label) -> &'static [u8]
    ensures { result.now ≡ example_of label }
{
    match label {
        Label::Frames => b": 300 ms at 48000 a second are 14400",
        _ => b"",
    }
}

// The range of a number.
fn put_range(
    text: &mut Text,
    label: Label,
    low: u32,
    high: u32,
    counted: Counted,
) -> Result<(), Memory>
    ensures { OnOk result (text.new ≡ text.old ++ range_of label low high counted) }
{
    text.extend(label_word(label))?;
    let (low, high) = (u64::from(low), u64::from(high));
    put_two_numbers(text, b" is ", low, b" to ", high, counted_text(counted))?;
    text.extend(example_of(label))
}

/// What the word of a parameter has to be.
pub fn put_rule(text: &mut Text, param: Param, word: &[u8]) -> Result<(), Memory>
    ensures { OnOk result (text.new ≡ text.old ++ rule_of param.label param.form word.now) }
{
    match param.form {
        Form::Number { low, high, counted } => put_range(text, param.label, low, high, counted),
        Form::Gain { high } => {
            let behind = b", in 1/256: 256 is 0 dB, 128 is 0.5 or -6 dB";
            put_two_numbers(
                text,
                b"a gain is -",
                u64::from(high),
                b" to ",
                u64::from(high),
                behind,
            )
        }
        Form::Channels => {
            let behind = b" numbers from 0 to CHANNELS - 1, parted by single commas";
            text.extend(label_word(param.label))?;
            put_number(text, b" is 1 to ", CHANNELS_LIMIT, behind)
        }
        Form::File => text.extend(b"a file word has at most 255 bytes"),
        Form::Output | Form::Input => text.extend(end_rule(word)),
        Form::New | Form::Node | Form::Port => {
            text.extend(b"a name is a lower-case letter and up to 30 of a to z, 0 to 9 and _")
        }
    }
}
