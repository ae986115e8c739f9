//! The values of an array or a choice.
ghost use Rattle.std.specs.Prelude.{◌≡◌, ◌≤◌, []};
ghost use Rattle.dump_reading.specs.Answers.{IsAnswer};
ghost use Rattle.dump_reading.specs.working.Lines.{many};
ghost use Rattle.dump_reading.specs.Values.{element_said, may_hold};

use crate::fault::{DumpWhy, Stop};
use crate::heads::{Head, head_said};
use crate::lines::{MOST_LEVELS, line_said, stop_at, wrong_words};
use pod_codec::{Pod, type_number};
use pw_lists::Items;
use std::alloc::Global;

/// Whether an array or a choice may hold `count` values of this type.
pub(crate) fn may_hold(child: u32, count: u32) -> bool
    ensures { result ≡ may_hold child count }
{
    matches!(child, 2..=7 | 10 | 11 | 18) || (child == 1 && count == 0)
}

// A value of this child type that holds no others, and the lines after it.
#[tactic(auto, unfolding(crate::specs::Values::element_said))]
fn element_said(alloc: Global, text: &[u8], level: usize, child: u32) -> Result<(Pod, &[u8]), Stop>
    requires { level ≤ MOST_LEVELS }
    ensures { IsAnswer (element_said child level text.now) (λ x. (x.0, x.1.now)) result }
{
    match line_said(text, level) {
        Err(why) => Err(stop_at(text, why)),
        Ok((words, rest)) => match head_said(alloc, words) {
            Err(_memory) => Err(Stop::Memory),
            Ok(None) => Err(stop_at(text, wrong_words(words))),
            Ok(Some(Head::Leaf(pod))) => {
                if type_number(&pod) == child {
                    Ok((pod, rest))
                } else {
                    Err(stop_at(text, DumpWhy::Child))
                }
            }
            Ok(Some(_other)) => Err(stop_at(text, DumpWhy::Child)),
        },
    }
}

/// `count` values of a child type, and the lines after them.
pub(crate) fn elements_said(
    alloc: Global,
    text: &[u8],
    level: usize,
    child: u32,
    count: u32,
) -> Result<(Items<Pod>, &[u8]), Stop>
    requires { level ≤ MOST_LEVELS }
    ensures { IsAnswer (many (element_said child level) count [] text.now)
        (λ x. (x.0, x.1.now)) result }
{
    let mut values = Items::new(alloc);
    let mut rest = text;
    'values: for _ in 0..count {
        match element_said(alloc, rest, level, child) {
            Err(stop) => return Err(stop),
            Ok((value, after)) => {
                values.push(value)?;
                rest = after;
            }
        }
    }
    Ok((values, rest))
}
