//! `filter A B OUT`: two objects are read as formats, and what they have in common is stored as an
//! object.
#![tactic(auto, using(crate::proofs::AllowedLemmas::parts))]

ghost use Rattle.std.specs.Prelude.{◌≡◌, [], ◌∷◌, ◌++◌, codes, Ok, IsSome, IfOk, OnOk};
ghost use Rattle.format_filter.specs.declared.common.Filtered.TheVariants.{Common};
ghost use Rattle.format_filter.specs.CommonFormat.{IsSoundFormat};
ghost use Rattle.pw_outside.specs.Files.{names_in};
ghost use Rattle.command_frame.specs.declared.work.Content.TheVariants as C;
ghost use Rattle.run_results.specs.StatusLine.{numbers_line};
ghost use Rattle.command_frame.specs.Preparing.{LoadsOnly};
ghost use Rattle.pw_top.specs.working.Ending.{Ends, CommandCause, IsDeliverable, Tells};
ghost use Rattle.pw_top.specs.Allowed.{Reads};
ghost use Rattle.pw_top.specs.Filter.{clash_work, types_work, StoresObject, GivesFiltered, FiltersTo};
ghost use Rattle.pw_top.specs.Filter.{ReadsSecond, LoadsSecond, ReadsFirst, IsFilterAnswer};
ghost use Rattle.pw_top.specs.FilterFound.{IsFoundOf, IsFoundByFilter};
ghost use Rattle.pw_top.specs.working.Filtering.{IsFoundWith, IsFoundAfter, IsFoundFrom};

use crate::clashes::clash_of;
use crate::format_file::format_step;
use crate::pod_file::POD_BYTES;
use command_frame::load_step;
use format_filter::{Filtered, Format, filter, pod_of};
use pod_codec::{Pod, WriteFault, write_pod};
use pw_lists::{Items, Memory, Text, Which, append_decimal};
use pw_outside::Files;
use run_results::{Clash, Content, Status, Store, What, Work};
use std::alloc::Global;

/// Filters the objects of two files, A as output, and stores what they have in common under a third
/// name.
#[derive(Drop)]
pub struct FilterFiles {
    pub a: Text,
    pub b: Text,
    pub out: Text,
}

impl FilterFiles {
    /// Makes the loads in order. What is found of a clash is left in `what`. It stores and puts
    /// nothing.
    pub fn find<F: Files>(
        self,
        alloc: Global,
        files: &mut F,
        what: &mut What,
    ) -> Result<Work, Status>
        ensures files { LoadsOnly (F.held files.old) (F.held files.new) (F.load_faults files.old)
            (F.load_faults files.new) (F.store_faults files.old) (F.store_faults files.new) }
        ensures told { Tells (F.held files.old)
            (λ names. IsFilterAnswer names self.a self.b self.out) result }
        ensures what { OnOk result (IsSome (F.held files.old)
            → IsFoundByFilter (names_in (F.held files.old)) self.a self.b what.new) }
        ensures cause { CommandCause IsDeliverable (F.load_faults files.old)
            (F.load_faults files.new) result }
    {
        let FilterFiles { a, b, out } = self;
        let long = Status::Limit {
            place: 1,
            which: Which::PodBytes,
        };
        match load_step(alloc, files, 1, &a, POD_BYTES, long) {
            Err(status) => Err(status),
            Ok(bytes) => first_loaded(alloc, files, &bytes, &b, out, what),
        }
    }
}

// What the first file gives that was loaded.
fn first_loaded<F: Files>(
    alloc: Global,
    files: &mut F,
    bytes: &Items<u8>,
    b: &Text,
    out: Text,
    what: &mut What,
) -> Result<Work, Status>
    ensures files { LoadsOnly (F.held files.old) (F.held files.new) (F.load_faults files.old)
        (F.load_faults files.new) (F.store_faults files.old) (F.store_faults files.new) }
    ensures told { Tells (F.held files.old)
        (λ names. ReadsFirst names b.now out bytes.now) result }
    ensures what { OnOk result (IsSome (F.held files.old)
        → IsFoundFrom (names_in (F.held files.old)) b.now bytes.now what.new) }
    ensures cause { CommandCause IsDeliverable (F.load_faults files.old)
        (F.load_faults files.new) result }
{
    match format_step(alloc, 1, bytes.as_slice()) {
        Err(status) => Err(status),
        Ok(first) => load_second(alloc, files, &first, b, out, what),
    }
}

// The second file is loaded once the first is a format.
fn load_second<F: Files>(
    alloc: Global,
    files: &mut F,
    first: &Format,
    b: &Text,
    out: Text,
    what: &mut What,
) -> Result<Work, Status>
    requires { IsSoundFormat first.now }
    ensures files { LoadsOnly (F.held files.old) (F.held files.new) (F.load_faults files.old)
        (F.load_faults files.new) (F.store_faults files.old) (F.store_faults files.new) }
    ensures told { Tells (F.held files.old)
        (λ names. LoadsSecond names b.now out first.now) result }
    ensures what { OnOk result (IsSome (F.held files.old)
        → IsFoundAfter (names_in (F.held files.old)) b.now first.now what.new) }
    ensures cause { CommandCause IsDeliverable (F.load_faults files.old)
        (F.load_faults files.new) result }
{
    let long = Status::Limit {
        place: 2,
        which: Which::PodBytes,
    };
    match load_step(alloc, files, 2, b, POD_BYTES, long) {
        Err(status) => Err(status),
        Ok(bytes) => second_loaded(alloc, first, &bytes, out, what),
    }
}

// What the second file gives that was loaded.
fn second_loaded(
    alloc: Global,
    first: &Format,
    bytes: &Items<u8>,
    out: Text,
    what: &mut What,
) -> Result<Work, Status>
    requires { IsSoundFormat first.now }
    ensures done { Ends (ReadsSecond out first.now bytes.now) result }
    ensures what { OnOk result (IsFoundWith first.now bytes.now what.new) }
    ensures cause { CommandCause IsDeliverable 0 0 result }
{
    match format_step(alloc, 2, bytes.as_slice()) {
        Err(status) => Err(status),
        Ok(second) => filter_both(alloc, first, &second, out, what),
    }
}

// What the filter of two formats gives. What is found of it is left in `what`.
fn filter_both(
    alloc: Global,
    a: &Format,
    b: &Format,
    out: Text,
    what: &mut What,
) -> Result<Work, Status>
    requires a { IsSoundFormat a.now }
    requires b { IsSoundFormat b.now }
    ensures done { Ends (Reads (FiltersTo out a.now b.now)) result }
    ensures what { OnOk result (IsFoundOf a.now b.now what.new) }
    ensures cause { CommandCause IsDeliverable 0 0 result }
{
    match filter(alloc, a, b) {
        Err(_memory) => Err(Status::Memory),
        Ok(Filtered::Common(format)) => {
            *what = What::Nothing;
            common_object(alloc, &format, out)
        }
        Ok(Filtered::Clash { key }) => {
            *what = What::Clash(clash_of(a, b, key));
            clash_at(alloc, key)
        }
        Ok(Filtered::Types) => {
            *what = What::Clash(Clash::Types);
            clash_of_types(alloc)
        }
    }
}

// The object of the common format, to be stored.
fn common_object(alloc: Global, format: &Format, out: Text) -> Result<Work, Status>
    requires { IsSoundFormat format.now }
    ensures done { Ends (Reads (GivesFiltered out (Common format.now))) result }
    ensures cause { CommandCause IsDeliverable 0 0 result }
{
    match pod_of(alloc, format) {
        Err(_memory) => Err(Status::Memory),
        Ok(pod) => store_object(alloc, &pod, out),
    }
}

// The store of an object, and its line; or its limit, where it cannot be written.
fn store_object(alloc: Global, pod: &Pod, out: Text) -> Result<Work, Status>
    ensures done { Ends (Reads (StoresObject out pod.now)) result }
    ensures cause { CommandCause IsDeliverable 0 0 result }
{
    let mut bytes = Items::new(alloc);
    match write_pod(alloc, pod, &mut bytes) {
        Err(WriteFault::Memory) => Err(Status::Memory),
        Err(WriteFault::Unwritable) => Err(Status::Limit {
            place: 3,
            which: Which::PodBytes,
        }),
        Ok(()) => match store_bytes(alloc, out, bytes) {
            Err(_memory) => Err(Status::Memory),
            Ok(work) => Ok(work),
        },
    }
}

// The store of these bytes.
fn store_bytes(alloc: Global, out: Text, bytes: Items<u8>) -> Result<Work, Memory>
    ensures { IfOk result (λ work. work ≡ record {
      stores = record { place = 3; name = out; content = C.Bytes bytes } ∷ [];
      text = codes "common\n";
    }) }
{
    let mut stores = Items::new(alloc);
    stores.push(Store {
        place: 3,
        name: out,
        content: Content::Bytes(bytes),
    })?;
    let text = Items::from_slice(alloc, b"common\n".as_slice())?;
    Ok(Work { stores, text })
}

// The line of a key that clashes.
fn clash_line(alloc: Global, key: u32) -> Result<Text, Memory>
    ensures { IfOk result (λ text. text ≡ codes "clash" ++ numbers_line (key ∷ [])) }
{
    let mut text = Items::from_slice(alloc, b"clash ".as_slice())?;
    append_decimal(&mut text, u64::from(key))?;
    text.push(b'\n')?;
    Ok(text)
}

// Nothing is stored where a key clashes.
fn clash_at(alloc: Global, key: u32) -> Result<Work, Status>
    ensures done { Ends (Reads (λ outcome. outcome ≡ Ok (clash_work key))) result }
    ensures cause { CommandCause IsDeliverable 0 0 result }
{
    match clash_line(alloc, key) {
        Err(_memory) => Err(Status::Memory),
        Ok(text) => Ok(Work {
            stores: Items::new(alloc),
            text,
        }),
    }
}

// Nor where the object types do.
fn clash_of_types(alloc: Global) -> Result<Work, Status>
    ensures done { Ends (Reads (λ outcome. outcome ≡ Ok types_work)) result }
    ensures cause { CommandCause IsDeliverable 0 0 result }
{
    match Items::from_slice(alloc, b"clash type\n".as_slice()) {
        Err(_memory) => Err(Status::Memory),
        Ok(text) => Ok(Work {
            stores: Items::new(alloc),
            text,
        }),
    }
}
