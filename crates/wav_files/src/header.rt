//! The 44 bytes before the samples of a plain file.
ghost use Rattle.std.specs.Prelude.{◌≡◌, ◌+◌, ◌^◌, ◌<◌, ◌≤◌};
ghost use Rattle.pw_lists.specs.Limits.{channels_limit, rate_limit};
ghost use Rattle.wav_files.specs.WavWriting.{wav_header};

/// How many bytes are before the samples of a plain file.
pub(crate) const HEADER: usize = 44;

/// The bytes before `size` bytes of samples: the chunk RIFF WAVE, its chunk "fmt " and the head of
/// its chunk "data".
pub(crate) fn header_of(rate: u32, channels: u32, size: u32) -> [u8; 44]
    requires rate { rate ≤ rate_limit }
    requires channels { channels ≤ channels_limit }
    requires size { 36 + size < 2 ^ 32 }
    ensures { result ≡ wav_header rate channels size }
{
    let all = (36 + size).to_le_bytes();
    let count = channels.to_le_bytes();
    let frames = rate.to_le_bytes();
    let speed = (2 * channels * rate).to_le_bytes();
    let frame = (2 * channels).to_le_bytes();
    let data = size.to_le_bytes();
    [
        b'R', b'I', b'F', b'F', all[0], all[1], all[2], all[3], b'W', b'A', b'V', b'E', //
        b'f', b'm', b't', b' ', 16, 0, 0, 0, 1, 0, count[0], count[1], //
        frames[0], frames[1], frames[2], frames[3], speed[0], speed[1], speed[2], speed[3], //
        frame[0], frame[1], 16, 0, b'd', b'a', b't', b'a', data[0], data[1], data[2], data[3],
    ]
}
