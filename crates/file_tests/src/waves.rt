//! WAV files byte by byte, and the fault of each that is no WAV file.
use pw_lists::Items;
use std::alloc::Global;
use std::test::Fail;
use wav_files::{Wav, read_wav, write_wav};

/// The mono file of the samples 7, 8, 9 and 0, of 48000 frames a second.
const PLAIN: [u8; 52] = [
    0x52, 0x49, 0x46, 0x46, 0x2c, 0, 0, 0, 0x57, 0x41, 0x56, 0x45, //
    0x66, 0x6d, 0x74, 0x20, 0x10, 0, 0, 0, 0x01, 0, 0x01, 0, //
    0x80, 0xbb, 0, 0, 0, 0x77, 0x01, 0, 0x02, 0, 0x10, 0, //
    0x64, 0x61, 0x74, 0x61, 0x08, 0, 0, 0, 0x07, 0, 0x08, 0, 0x09, 0, 0, 0,
];

/// A mono file of the samples 1 and 2 as a tool writes it that does not know how long it will be:
/// with a chunk of an odd size, greatest sizes, and a byte at the end that is no sample.
const STREAMED: [u8; 61] = [
    0x52, 0x49, 0x46, 0x46, 0xff, 0xff, 0xff, 0xff, 0x57, 0x41, 0x56, 0x45, //
    0x66, 0x6d, 0x74, 0x20, 0x10, 0, 0, 0, 0x01, 0, 0x01, 0, //
    0x80, 0xbb, 0, 0, 0, 0x77, 0x01, 0, 0x02, 0, 0x10, 0, //
    0x4c, 0x49, 0x53, 0x54, 0x03, 0, 0, 0, 0x61, 0x62, 0x63, 0, //
    0x64, 0x61, 0x74, 0x61, 0xff, 0xff, 0xff, 0xff, 0x01, 0, 0x02, 0, 0x03,
];

/// The same with an extensible format chunk.
const EXTENSIBLE: [u8; 85] = [
    0x52, 0x49, 0x46, 0x46, 0xff, 0xff, 0xff, 0xff, 0x57, 0x41, 0x56, 0x45, //
    0x66, 0x6d, 0x74, 0x20, 0x28, 0, 0, 0, 0xfe, 0xff, 0x01, 0, //
    0x80, 0xbb, 0, 0, 0, 0x77, 0x01, 0, 0x02, 0, 0x10, 0, 0x16, 0, 0x10, 0, 0x04, 0, 0, 0, //
    0x01, 0, 0, 0, 0, 0, 0x10, 0, 0x80, 0, 0, 0xaa, 0, 0x38, 0x9b, 0x71, //
    0x4c, 0x49, 0x53, 0x54, 0x03, 0, 0, 0, 0x61, 0x62, 0x63, 0, //
    0x64, 0x61, 0x74, 0x61, 0xff, 0xff, 0xff, 0xff, 0x01, 0, 0x02, 0, 0x03,
];

/// What reading answers: 0 and the number of samples, or the number of the fault.
fn answer(alloc: Global, bytes: &[u8]) -> (u8, usize) {
    match read_wav(alloc, bytes) {
        Ok(wav) => (0, wav.samples.len()),
        Err(fault) => (fault.number(), 0),
    }
}

#[test]
fn four_samples_make_a_file(rt: HostRuntime) -> Result<(), Fail> {
    let wav = Wav {
        rate: 48000,
        channels: 1,
        samples: Items::from_slice(rt.alloc(), [7i16, 8, 9, 0].as_slice())?,
    };
    let mut bytes = Items::new(rt.alloc());
    write_wav(rt.alloc(), &wav, &mut bytes)?;
    assert!(rt; bytes.as_slice() == PLAIN.as_slice());
    Ok(())
}

#[test]
fn files_of_this_and_of_other_tools_are_read(rt: HostRuntime) {
    // A file, and its samples.
    for (number, (bytes, samples)) in [
        (PLAIN.as_slice(), [7i16, 8, 9, 0].as_slice()),
        (STREAMED.as_slice(), &[1, 2]),
        (EXTENSIBLE.as_slice(), &[1, 2]),
    ]
    .iter()
    .enumerate()
    {
        let Ok(wav) = read_wav(rt.alloc(), bytes) else {
            panic!(rt; "file {number} is none");
        };
        assert_eq!(rt; (wav.rate, wav.channels), (48000, 1), "of file {number}");
        assert_eq!(rt; wav.samples.as_slice(), *samples, "of file {number}");
    }
}

#[test]
fn each_front_of_a_file_has_its_answer(rt: HostRuntime) {
    // The lengths of fronts from one on, before another: the fault, or the number of samples.
    for (from, before, fault, samples) in [
        (0, 12, 1, 0),
        (12, 20, 2, 0),
        (20, 36, 6, 0),
        (36, 44, 5, 0),
        (44, 47, 6, 0),
        (47, 56, 5, 0),
        (56, 58, 0, 0),
        (58, 60, 0, 1),
        (60, 61, 0, 2),
    ] {
        for length in from..before {
            let Some(front) = STREAMED.get(..length) else {
                panic!(rt; "it has {length} bytes");
            };
            assert_eq!(rt;
                answer(rt.alloc(), front),
                (fault, samples),
                "of {length} bytes"
            );
        }
    }
    assert_eq!(rt; answer(rt.alloc(), &PLAIN[..48]), (6, 0));
}

#[test]
fn one_byte_makes_a_fault(rt: HostRuntime) {
    // The place of a byte, the byte, and the fault, or the number of samples.
    let table = [
        (0usize, b'r', 1, 0), // not a RIFF file
        (12, b'x', 2, 0), // the samples are before a format
        (16, 15, 3, 0), // too short a format
        (16, 33, 6, 0), // a format past the end
        (20, 3, 4, 0), // samples of another kind
        (34, 8, 4, 0), // 8 bits
        (22, 0, 8, 0), // no channel
        (22, 9, 8, 0), // nine channels
        (22, 2, 3, 0), // two channels in a frame of one
        (36, b'x', 5, 0), // no samples
        (40, 12, 6, 0), // more samples than there are
        (40, 3, 7, 0), // a sample and a half
        (40, 4, 0, 2), // two samples, and rubbish after them
        (4, 0, 0, 4), // the size of the file is not compared
        (28, 1, 0, 4), // nor are the bytes a second
    ];
    for (place, byte, fault, samples) in table {
        let mut bytes = PLAIN;
        if let Some(changed) = bytes.get_mut(place) {
            *changed = byte;
        }
        let found = answer(rt.alloc(), bytes.as_slice());
        assert_eq!(rt; found, (fault, samples), "{byte} at {place}");
    }
}
