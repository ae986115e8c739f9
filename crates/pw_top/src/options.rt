//! The options of `run`: each at most once, in any order.
ghost use Rattle.std.specs.Prelude.{◌≡◌, ◌≤◌, map, string_bytes, IfOk};
ghost use Rattle.ready_queues.specs.Lanes.{loops_limit};
ghost use Rattle.graph_script.specs.Arguments.{number_of};
ghost use Rattle.pw_top.specs.Options.{words_for, place_after, begun, loops_given, ticks_given, parsed_after, options_in, options_of, HasFew, SaysFew};

use graph_script::number_within;

/// Loops beside the driver's, at most.
const LOOPS_LIMIT: u32 = 16;

/// Asks of a ticker from one late check to the next, at most.
const TICKS_LIMIT: u32 = 1_000_000;

/// What options say; None where one is not there.
#[derive(Clone, Copy, Drop)]
pub struct Options {
    pub loops: Option<u32>,
    pub ticks: Option<u32>,
    pub trace: bool,
    pub steal: bool,
}

// What the words so far say.
#[derive(Clone, Copy, Drop)]
enum ParsedOptions {
    Whole(Options),
    /// The value of `--loops` is expected.
    WantsLoops(Options),
    /// The value of `--ticks` is expected.
    WantsTicks(Options),
    /// The index of the first word at fault.
    Fault(u32),
}

// The words of an option with a value.
fn pair(value: Option<u32>) -> u32
    ensures { result ≡ words_for value }
{
    match value {
        None => 0,
        Some(_) => 2,
    }
}

// The index of the word after the options: `run`, the script and they are before it.
fn place_after(options: Options) -> u32
    ensures is { result ≡ place_after options }
    ensures few { result ≤ 8 }
{
    let flags = u32::from(options.trace) + u32::from(options.steal);
    2 + pair(options.loops) + pair(options.ticks) + flags
}

// An option begins that was not there before.
fn begun(options: Options, word: &[u8]) -> ParsedOptions
    requires few { HasFew options }
    ensures is { result ≡ begun options word.now }
    ensures few { SaysFew result }
{
    if word == b"--loops".as_slice() && options.loops.is_none() {
        ParsedOptions::WantsLoops(options)
    } else if word == b"--ticks".as_slice() && options.ticks.is_none() {
        ParsedOptions::WantsTicks(options)
    } else if word == b"--trace".as_slice() && !options.trace {
        ParsedOptions::Whole(Options {
            loops: options.loops,
            ticks: options.ticks,
            trace: true,
            steal: options.steal,
        })
    } else if word == b"--steal".as_slice() && !options.steal {
        ParsedOptions::Whole(Options {
            loops: options.loops,
            ticks: options.ticks,
            trace: options.trace,
            steal: true,
        })
    } else {
        ParsedOptions::Fault(place_after(options))
    }
}

// The value of `--loops` is read.
fn loops_given(options: Options, word: &[u8]) -> ParsedOptions
    ensures is { result ≡ loops_given options (number_of 0 loops_limit word.now) }
    ensures few { SaysFew result }
{
    match number_within(word, 0, LOOPS_LIMIT) {
        None => ParsedOptions::Fault(place_after(options) + 1),
        Some(loops) => ParsedOptions::Whole(Options {
            loops: Some(loops),
            ticks: options.ticks,
            trace: options.trace,
            steal: options.steal,
        }),
    }
}

// The value of `--ticks` is read.
fn ticks_given(options: Options, word: &[u8]) -> ParsedOptions
    requires few { HasFew options }
    ensures is { result ≡ ticks_given options (number_of 1 1000000 word.now) }
    ensures few { SaysFew result }
{
    match number_within(word, 1, TICKS_LIMIT) {
        None => ParsedOptions::Fault(place_after(options) + 1),
        Some(ticks) => ParsedOptions::Whole(Options {
            loops: options.loops,
            ticks: Some(ticks),
            trace: options.trace,
            steal: options.steal,
        }),
    }
}

// One word more.
fn parsed_after(parsed: ParsedOptions, word: &[u8]) -> ParsedOptions
    requires few { SaysFew parsed }
    ensures is { result ≡ parsed_after parsed word.now }
    ensures few { SaysFew result }
{
    match parsed {
        ParsedOptions::Whole(options) => begun(options, word),
        ParsedOptions::WantsLoops(options) => loops_given(options, word),
        ParsedOptions::WantsTicks(options) => ticks_given(options, word),
        ParsedOptions::Fault(index) => ParsedOptions::Fault(index),
    }
}

// What is said at the end, where no value is expected.
fn options_in(parsed: ParsedOptions) -> Result<Options, u32>
    requires few { SaysFew parsed }
    ensures is { result ≡ options_in parsed }
    ensures few { IfOk result HasFew }
{
    match parsed {
        ParsedOptions::Whole(options) => Ok(options),
        ParsedOptions::WantsLoops(options) => Err(place_after(options) + 1),
        ParsedOptions::WantsTicks(options) => Err(place_after(options) + 1),
        ParsedOptions::Fault(index) => Err(index),
    }
}

/// What the words after a script say, or the index of the first at fault. Takes no memory.
#[tactic(auto, unfolding(crate::specs::Options::options_of))]
pub fn read_options(words: &[String]) -> Result<Options, u32>
    ensures is { result ≡ options_of (map string_bytes words.now) }
    ensures few { IfOk result HasFew }
{
    let mut parsed = ParsedOptions::Whole(Options {
        loops: None,
        ticks: None,
        trace: false,
        steal: false,
    });
    for word in words {
        parsed = parsed_after(parsed, word.as_bytes());
    }
    options_in(parsed)
}
