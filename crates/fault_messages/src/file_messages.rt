//! What is wrong with a file, in words.
ghost use Rattle.std.specs.Prelude.{◌≡◌, ◌++◌, option_copied, OnOk};
ghost use Rattle.fault_messages.specs.FileMessages.{wav_said, absent_text, absent_said};
ghost use Rattle.fault_messages.specs.FileMessages.{read_said, write_said};
ghost use Rattle.system_files.specs.Reasons.{why_said};
ghost use Rattle.fault_messages.specs.FileMessages.{limit_said, is_of_file, limit_text};

use crate::lines::begins;
use crate::places::{file_word, has_quote, is_dash, put_file};
use crate::putting::put_both;
use pw_lists::{Memory, Text, Which};
use system_files::{FileWhy, why_words};
use wav_files::WavFault;

/// Why a WAV file is refused.
pub fn wav_said(why: WavFault) -> &'static [u8]
    ensures { result.now ≡ wav_said why }
{
    match why {
        WavFault::NotRiff => {
            b"this is no RIFF WAVE file; \
                of a sound file ffmpeg -i IN -c:a pcm_s16le OUT.wav makes one"
        }
        WavFault::NoFmt => b"there is no fmt chunk before the samples",
        WavFault::BadFmt => b"the fmt chunk is not sound",
        WavFault::NotPcm16 => {
            b"only PCM of 16 bits a sample is read; \
                sox IN -e signed -b 16 OUT.wav may make that of it"
        }
        WavFault::NoData => b"there is no data chunk",
        WavFault::Truncated => {
            b"a chunk passes the end of the file, as where it was cut or written \
                to a pipe; sox --ignore-length A B may mend it"
        }
        WavFault::Uneven => b"the samples are not whole frames",
        WavFault::ChannelsOrRate => {
            b"only 1 to 8 channels at 1 to 384000 frames a second are read"
        }
        WavFault::Memory => b"no memory was left",
    }
}

// That a file of a script is not there.
fn absent_text(file: &[u8]) -> &'static [u8]
    ensures { result.now ≡ absent_text file.now }
{
    if has_quote(file) {
        b"there is no such file; quotes are a part of the word"
    } else if is_dash(file) {
        b"there is no such file; standard input is /dev/stdin"
    } else if begins(file, b"/") {
        b"there is no such file"
    } else {
        b"there is no such file; file words are paths from the working directory"
    }
}

/// That a file is not there, which a line may name.
pub fn absent_said(line: Option<&[u8]>) -> &'static [u8]
    ensures { result.now ≡ absent_said (option_copied line.entry) }
{
    match line {
        None => b"there is no such file",
        Some(line) => absent_text(file_word(line)),
    }
}

// That something is not done, and why, where that is known.
fn put_why(text: &mut Text, what: &[u8], why: Option<FileWhy>) -> Result<(), Memory>
    ensures { OnOk result (text.new ≡ text.old ++ (what.now ++ why_said why)) }
{
    put_both(text, what, why_words(why))
}

/// That a file is not read, and why, where that is known.
pub fn put_read_said(text: &mut Text, why: Option<FileWhy>) -> Result<(), Memory>
    ensures { OnOk result (text.new ≡ text.old ++ read_said why) }
{
    put_why(text, b"the file cannot be read", why)
}

/// That a file is not written, and why, where that is known.
pub fn put_write_said(text: &mut Text, why: Option<FileWhy>) -> Result<(), Memory>
    ensures { OnOk result (text.new ≡ text.old ++ write_said why) }
{
    put_why(text, b"the file cannot be written", why)
}

/// What passes a limit.
pub fn limit_said(which: Which) -> &'static [u8]
    ensures { result.now ≡ limit_said which }
{
    match which {
        Which::ScriptBytes => b"more than 1048576 bytes",
        Which::WavBytes => b"more than 268435456 bytes",
        Which::AllWavBytes => b"more than 536870912 bytes of WAV files in all",
        Which::PodBytes => b"more bytes than a POD may have",
        Which::Nodes => b"more than 63 nodes",
        Which::Epochs => b"more than 1024 lines of cycles and drain",
        Which::Links => b"more than 256 links at a time",
        Which::Events => {
            b"more than 4194304 events; three are counted for each cycle, and two for each \
                active node in it, the driver among them"
        }
        Which::SinkSamples => {
            b"the sinks would keep more than 134217728 samples, \
                23 minutes of stereo at 48000 a second"
        }
        Which::BlockBytes => b"the buffers would have more than 268435456 bytes",
        Which::TraceBytes => b"more than 268435456 bytes",
    }
}

// Whether it is a limit of a file that a line names.
fn is_of_file(which: Which) -> bool
    ensures { result ≡ is_of_file which }
{
    matches!(
        which,
        Which::WavBytes | Which::AllWavBytes | Which::PodBytes
    )
}

/// What passes a limit, with the file that the line names where it is one of that.
pub fn put_limit(text: &mut Text, which: Which, line: Option<&[u8]>) -> Result<(), Memory>
    ensures { OnOk result (text.new ≡ text.old ++ limit_text which (option_copied line.entry)) }
{
    if is_of_file(which) {
        put_file(text, line)?;
    }
    text.extend(limit_said(which))
}
