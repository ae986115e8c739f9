//! Calls that fail, words that could not be read, and the numbers of statuses. What is stored and
//! said of words and lists is asked by `bench/cases`.

use crate::program::Pods;
use pod_text::{DumpWhy, ListWhy, Status, make_pod};
use program_exit::run_read;
use pw_lists::{Items, Memory, Text};
use pw_outside::{Files, Loaded, MemFiles, MemSink, SureFiles, SureSink};
use std::alloc::Global;
use std::process::Abort;
use std::test::Fail;
use system_files::Unread;

// A text of its own.
fn text(alloc: Global, text: &str) -> Result<Text, Memory> {
    Items::from_slice(alloc, text.as_bytes())
}

// The words of a line, which blanks part.
pub(crate) fn words_of(alloc: Global, line: &str) -> Result<Items<String>, Memory> {
    let mut words = Items::new(alloc);
    for word in line.split_whitespace() {
        let word = String::from_str(alloc, word)?;
        words.push(word)?;
    }
    Ok(words)
}

#[test]
fn each_status_has_its_number(rt: HostRuntime) {
    let rows = [
        (Status::Ok, 0),
        (Status::Usage { word: 3 }, 1),
        (
            Status::List {
                line: 3,
                why: ListWhy::Words,
            },
            2,
        ),
        (
            Status::Text {
                line: 3,
                why: DumpWhy::More,
            },
            2,
        ),
        (Status::TooLong, 4),
        (Status::Absent { place: 1 }, 5),
        (Status::ReadFault { place: 1 }, 6),
        (Status::WriteFault { place: 2 }, 7),
        (Status::PutFault, 7),
        (Status::Limit { place: 1 }, 8),
        (Status::Memory, 9),
    ];
    for (status, number) in rows {
        assert!(rt; status.number() == number, "{number}");
    }
}

// The program on words, over files whose first store is to fail after 3 bytes, and an output whose
// first put is to fail after as many: this status, these bytes in `o`, these on standard output,
// and this sentence.
fn fails<R: AllocGlobal + Abort>(
    rt: &R,
    line: &str,
    status: Status,
    stored: Option<&[u8]>,
    put: &[u8],
    said: &str,
) -> Result<(), Memory> {
    let alloc = rt.alloc();
    let words = words_of(alloc, line)?;
    let mut files = MemFiles::new(alloc)?;
    files.add_file(alloc, &text(alloc, "s")?, b"2 128\n".as_slice())?;
    files.fail_store(alloc, 1, 3)?;
    let mut out = MemSink::new(alloc)?;
    out.fail_put(alloc, 1, 3)?;
    let report = make_pod(alloc, words.as_slice(), &mut files, &mut out);
    assert!(rt; report.status == status, "{line}");
    assert!(rt; report.sentence?.as_slice() == said.as_bytes(), "{line}");
    assert!(rt; out.bytes().as_slice() == put, "{line}");
    match files.load(alloc, &text(alloc, "o")?, 1000) {
        Ok(Loaded::Whole(bytes)) => match stored {
            Some(wanted) => assert!(rt; bytes.as_slice() == wanted, "{line}"),
            None => panic!(rt; "{line}"),
        },
        _ => assert!(rt; stored.is_none(), "{line}"),
    }
    Ok(())
}

#[test]
fn a_failed_store_and_a_failed_put_are_two_statuses(rt: HostRuntime) -> Result<(), Fail> {
    let half = b"\x38\0\0".as_slice();
    let rows = [
        (
            "gains s o",
            Status::WriteFault { place: 2 },
            Some(half),
            b"".as_slice(),
            "\"o\": it",
        ),
        ("gains s -", Status::PutFault, None, half, "standard output"),
        (
            "format - rate 8000..96000/4000 channels 2 mandatory channels",
            Status::PutFault,
            None,
            b"\x50\0\0".as_slice(),
            "standard output",
        ),
        (
            "--help",
            Status::PutFault,
            None,
            b"usa".as_slice(),
            "standard output",
        ),
    ];
    for (line, status, stored, put, what) in rows {
        let said = format!(in rt.alloc(); "pipegraph-pods: {what} cannot be written\n")?;
        fails(&rt, line, status, stored, put, &said)?;
    }
    Ok(())
}

// The whole program on words, over files of which the first load is to fail where that is said: it
// ends with this number, and puts these bytes on standard output and these on the error output.
fn ends<R: AllocGlobal + Abort>(
    rt: &R,
    words: Result<Items<String>, Unread>,
    fails: bool,
    number: u8,
    put: &[u8],
    said: &str,
) -> Result<(), Memory> {
    let alloc = rt.alloc();
    let mut files = MemFiles::new(alloc)?;
    files.add_file(alloc, &text(alloc, "s")?, b"0 -256\n".as_slice())?;
    if fails {
        files.fail_load(alloc, 1)?;
    }
    let (out, mut errors) = (SureSink::new(alloc)?, SureSink::new(alloc)?);
    let exit = run_read(&Pods, alloc, words, files, out, &mut errors);
    assert!(rt; exit.code == number, "{said}");
    assert!(rt; exit.said == Ok(()), "{said}");
    assert!(rt; exit.out.bytes().as_slice() == put, "{said}");
    assert!(rt; errors.bytes().as_slice() == said.as_bytes(), "{said}");
    Ok(())
}

#[test]
fn a_sentence_goes_to_the_error_output_alone(rt: HostRuntime) -> Result<(), Fail> {
    let alloc = rt.alloc();
    let absent = "pipegraph-pods: \"t\": there is no such file\n";
    let unread = "pipegraph-pods: \"s\": it cannot be read\n";
    ends(&rt, Ok(words_of(alloc, "gains s o")?), false, 0, b"", "")?;
    ends(&rt, Ok(words_of(alloc, "gains s o")?), true, 6, b"", unread)?;
    ends(
        &rt,
        Ok(words_of(alloc, "gains t -")?),
        false,
        5,
        b"",
        absent,
    )?;
    Ok(())
}

#[test]
fn words_that_could_not_be_read_have_a_sentence(rt: HostRuntime) -> Result<(), Fail> {
    let rows = [
        (
            Unread::NoText { word: 2 },
            1,
            "pipegraph-pods: word 2 is not text in UTF-8\n",
        ),
        (Unread::Memory, 9, "pipegraph-pods: no memory was left\n"),
    ];
    for (unread, number, said) in rows {
        ends(&rt, Err(unread), false, number, b"", said)?;
    }
    Ok(())
}
