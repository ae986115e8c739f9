//! What a call finds of two objects: how they clash, at which key, and whether they are formats.

use crate::finding::found_in;
use crate::offered::AT_48000;
use pw_lists::Memory;
use pw_top::{Clash, What};
use row_files::{FileRow, Held, SURE, files_of};
use std::sync::Wait;
use std::test::Fail;
use std::thread::Threads;

/// A format of the rate 44100.
const OTHER: Held<'static> = Held::Words(&[32, 15, 262147, 3, 65539, 0, 4, 4, 44_100, 0]);

/// A format with a mandatory rate, and one with a mandatory key above it, 65541.
const NEEDED: Held<'static> = Held::Words(&[32, 15, 262147, 3, 65539, 8, 4, 4, 44_100, 0]);

const ABOVE: Held<'static> = Held::Words(&[32, 15, 262147, 3, 65541, 8, 4, 4, 3, 0]);

/// Properties, which are no format: two values under the key of a format's rate, one of them
/// mandatory, and one under another key.
const PROPS: Held<'static> = Held::Words(&[32, 15, 262146, 3, 65539, 0, 4, 4, 48_000, 0]);

const MUST: Held<'static> = Held::Words(&[32, 15, 262146, 3, 65539, 8, 4, 4, 2, 0]);

const BARE: Held<'static> = Held::Words(&[32, 15, 262146, 3, 65540, 0, 4, 4, 2, 0]);

/// Two formats of different rates, and a format with itself.
const RATES: &'static [FileRow<'static>] = &[("a.pod", AT_48000), ("b.pod", OTHER)];

const SAME: &'static [FileRow<'static>] = &[("a.pod", AT_48000), ("b.pod", AT_48000)];

/// Two objects, and how they clash.
type Clashing = (&'static [FileRow<'static>], Clash);

/// An object of another type; values under a key of both, mandatory or not; a mandatory key that
/// the second lacks, or the first, which is below another that the second lacks.
const CLASHES: &'static [Clashing] = &[
    (&[("a.pod", AT_48000), ("b.pod", PROPS)], Clash::Types),
    (
        RATES,
        Clash::Values {
            key: 65_539,
            formats: true,
        },
    ),
    (
        &[("a.pod", NEEDED), ("b.pod", AT_48000)],
        Clash::Values {
            key: 65_539,
            formats: true,
        },
    ),
    (
        &[("a.pod", ABOVE), ("b.pod", AT_48000)],
        Clash::SecondLacks {
            key: 65_541,
            formats: true,
        },
    ),
    (
        &[("a.pod", ABOVE), ("b.pod", NEEDED)],
        Clash::FirstLacks {
            key: 65_539,
            formats: true,
        },
    ),
    (
        &[("a.pod", PROPS), ("b.pod", MUST)],
        Clash::Values {
            key: 65_539,
            formats: false,
        },
    ),
    (
        &[("a.pod", MUST), ("b.pod", BARE)],
        Clash::SecondLacks {
            key: 65_539,
            formats: false,
        },
    ),
    (
        &[("a.pod", BARE), ("b.pod", MUST)],
        Clash::FirstLacks {
            key: 65_539,
            formats: false,
        },
    ),
];

// What a filter finds of these files, where one put fails, if any.
fn found_by<R: Threads + Wait + Sync + AllocGlobal>(
    rt: &R,
    rows: &[FileRow<'_>],
    failing: u64,
) -> Result<What, Memory> {
    let mut files = files_of(rt.alloc(), b"".as_slice(), rows, SURE)?;
    let (found, _out) = found_in(rt, "filter a.pod b.pod o.pod", &mut files, failing)?;
    Ok(found.what)
}

// How the objects of these files clash; None where they have a common format.
fn clash_in<R: Threads + Wait + Sync + AllocGlobal>(
    rt: &R,
    rows: &[FileRow<'_>],
) -> Result<Option<Clash>, Memory> {
    match found_by(rt, rows, 0)? {
        What::Clash(clash) => Ok(Some(clash)),
        _ => Ok(None),
    }
}

#[test]
fn a_filter_finds_how_two_objects_clash(rt: HostRuntime) -> Result<(), Fail> {
    for (rows, clash) in CLASHES {
        let found = clash_in(&rt, rows)?;
        assert_eq!(rt; found, Some(*clash));
    }
    Ok(())
}

#[test]
fn nothing_is_found_of_a_common_format_and_where_a_put_fails(rt: HostRuntime) -> Result<(), Fail> {
    let what = found_by(&rt, SAME, 0)?;
    assert!(rt; matches!(what, What::Nothing));
    let what = found_by(&rt, RATES, 1)?;
    assert!(rt; matches!(what, What::Nothing));
    Ok(())
}
