//! Choices in words.
ghost use Rattle.std.specs.Prelude.{◌≡◌, ◌≤◌, ◌∷◌, IfOk, IfSome, All, Some};
ghost use Rattle.std.specs.List.{slice_split};
ghost use Rattle.pod_codec.specs.SoundChoices.{IsOfType};
ghost use Rattle.format_filter.specs.Soundness.{IsSound};
ghost use Rattle.pod_text.specs.ChoiceWords as said;

use format_filter::{Choice, Wide};
use graph_script::number_within;
use pod_codec::Pod;
use pw_lists::{Items, Memory, next_piece};
use std::alloc::Global;

// A number of an Int, without a sign.
fn number_said(word: &[u8]) -> Option<u32>
    ensures is { result ≡ said.number_said word.now }
    ensures within { IfSome result (λ n. n ≤ 2147483647) }
{
    number_within(word, 0, i32::MAX as u32)
}

// The Int of a number.
fn int_of(n: u32) -> Pod
    requires { n ≤ 2147483647 }
    ensures is { result ≡ said.int_of n }
    ensures int { IsOfType 4 result }
{
    Pod::Int(n as i32)
}

// A Range whose least number is what is preferred.
#[tactic(auto, using(crate::proofs::ChoiceLemmas::range_sound))]
fn range_said(min: u32, max: u32) -> Option<Choice>
    requires { (min ≤ 2147483647) × (max ≤ 2147483647) }
    ensures said { result ≡ said.range_said min max }
    ensures sound { IfSome result IsSound }
{
    if max < min {
        return None;
    }
    Some(Choice::Range {
        wide: Wide::Int,
        pick: i64::from(min),
        min: i64::from(min),
        max: i64::from(max),
    })
}

// A Step whose least number is what is preferred.
fn step_said(min: u32, max: u32, step: u32) -> Option<Choice>
    requires { (min ≤ 2147483647) × (max ≤ 2147483647) × (step ≤ 2147483647) }
    ensures said { result ≡ said.step_said min max step }
    ensures sound { IfSome result IsSound }
{
    if max < min || step == 0 {
        return None;
    }
    Some(Choice::Step {
        wide: Wide::Int,
        pick: i64::from(min),
        min: i64::from(min),
        max: i64::from(max),
        step: i64::from(step),
    })
}

// The numbers of a word, parted by `|`, as Ints.
fn values_said(alloc: Global, word: &[u8]) -> Result<Option<Items<Pod>>, Memory>
    ensures said { IfOk result (λ values. values ≡ said.values_said word.now) }
    ensures ints { IfOk result (λ values. IfSome values (All (IsOfType 4))) }
{
    let mut values = Items::new(alloc);
    let mut rest = word;
    'pieces: loop {
        let (piece, after) = next_piece(rest, b'|');
        match number_said(piece) {
            None => return Ok(None),
            Some(n) => values.push(int_of(n))?,
        }
        match after {
            None => return Ok(Some(values)),
            Some(more) => rest = more,
        }
    }
}

// One value, or alternatives, of which the first is preferred.
#[tactic(auto, using(crate::proofs::ChoiceLemmas::only_sound))]
fn one_of(alloc: Global, values: Items<Pod>) -> Result<Option<Choice>, Memory>
    requires { All (IsOfType 4) values }
    ensures said { IfOk result (λ choice. choice ≡ said.one_of values) }
    ensures sound { IfOk result (λ choice. IfSome choice IsSound) }
{
    match values.as_slice() {
        [] => Ok(None),
        [first] => Ok(Some(Choice::Only(first.copy(alloc)?))),
        [first, ..] => {
            let pick = first.copy(alloc)?;
            Ok(Some(Choice::Enum { pick, alts: values }))
        }
    }
}

// A step after a least and a greatest number.
fn step_behind(min: u32, max: u32, rest: &[u8]) -> Option<Choice>
    requires { (min ≤ 2147483647) × (max ≤ 2147483647) }
    ensures said { result
        ≡ said.behind_max min (Some max) (slice_split said.is_slash rest.now) }
    ensures sound { IfSome result IsSound }
{
    let (step, after) = next_piece(rest, b'/');
    match after {
        Some(_more) => None,
        None => match number_said(step) {
            None => None,
            Some(step) => step_said(min, max, step),
        },
    }
}

// What is after a least number and two dots: the greatest, and a step where one is.
fn behind_min(min: u32, rest: &[u8]) -> Option<Choice>
    requires { min ≤ 2147483647 }
    ensures said { result ≡ said.behind_min min (slice_split said.is_slash rest.now) }
    ensures sound { IfSome result IsSound }
{
    let (greatest, after) = next_piece(rest, b'/');
    match number_said(greatest) {
        None => None,
        Some(max) => match after {
            None => range_said(min, max),
            Some(step) => step_behind(min, max, step),
        },
    }
}

// A Range or a Step from a least number, if nothing is between the two dots.
fn spread(gap: &[u8], min: &[u8], rest: &[u8]) -> Option<Choice>
    ensures said { result ≡ said.spread gap.now (said.number_said min.now) rest.now }
    ensures sound { IfSome result IsSound }
{
    if !gap.is_empty() {
        return None;
    }
    match number_said(min) {
        None => None,
        Some(n) => behind_min(n, rest),
    }
}

// What is after two dots of a word.
fn behind_gap(min: &[u8], gap: &[u8], rest: &[u8]) -> Option<Choice>
    ensures said { result ≡ said.behind_first min.now
        (gap.now ∷ slice_split said.is_dot rest.now) }
    ensures sound { IfSome result IsSound }
{
    let (last, after) = next_piece(rest, b'.');
    match after {
        None => spread(gap, min, last),
        Some(_more) => None,
    }
}

// What is after the first dot of a word.
fn behind_dot(min: &[u8], rest: &[u8]) -> Option<Choice>
    ensures said { result ≡ said.behind_first min.now (slice_split said.is_dot rest.now) }
    ensures sound { IfSome result IsSound }
{
    let (gap, after) = next_piece(rest, b'.');
    match after {
        None => None,
        Some(more) => behind_gap(min, gap, more),
    }
}

/// The choice of Ints that a word says: a number, alternatives parted by `|`, a Range as
/// `MIN..MAX`, or a Step as `MIN..MAX/STEP`; the first number is preferred. Numbers are from 0 to
/// 2147483647, the greatest is not below the least, and a step is above 0. Takes memory for
/// alternatives.
pub fn choice_said(alloc: Global, word: &[u8]) -> Result<Option<Choice>, Memory>
    ensures said { IfOk result (λ choice. choice ≡ said.choice_said word.now) }
    ensures sound { IfOk result (λ choice. IfSome choice IsSound) }
{
    let (first, after) = next_piece(word, b'.');
    match after {
        Some(rest) => Ok(behind_dot(first, rest)),
        None => match values_said(alloc, first)? {
            None => Ok(None),
            Some(values) => one_of(alloc, values),
        },
    }
}
