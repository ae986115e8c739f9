//! Lists of channels.
ghost use Rattle.std.specs.Prelude.{◌≡◌, ◌≤◌, IfOk};
ghost use Rattle.pw_lists.specs.Limits.{channels_limit};
ghost use Rattle.graph_script.specs.Arguments.{channel_list};
ghost use Rattle.graph_script.specs.Checked.{list_arg};

use crate::fault::ScriptWhy;
use crate::numbers::number_within;
use pw_lists::{CHANNELS_LIMIT, Items, Memory, next_piece};
use std::alloc::Global;

// The numbers of a list, each below `channels`, parted by single commas: at most as many as a port
// has channels.
fn channel_list(alloc: Global, word: &[u8], channels: u32) -> Result<Option<Items<u32>>, Memory>
    requires some { 1 ≤ channels }
    requires few { channels ≤ channels_limit }
    ensures { IfOk result (λ list. list ≡ channel_list channels word.now) }
{
    let mut list = Items::new(alloc);
    let mut rest = word;
    loop {
        let (item, after) = next_piece(rest, b',');
        let Some(n) = number_within(item, 0, channels - 1) else {
            return Ok(None);
        };
        if list.len() >= CHANNELS_LIMIT as usize {
            return Ok(None);
        }
        match list.push(n) {
            Ok(()) => {}
            Err(memory) => return Err(memory),
        }
        match after {
            None => return Ok(Some(list)),
            Some(more) => rest = more,
        }
    }
}

/// The list of channels that is meant, each below `channels`.
pub(crate) fn channels_in(
    alloc: Global,
    word: &[u8],
    channels: u32,
) -> Result<Result<Items<u32>, ScriptWhy>, Memory>
    requires some { 1 ≤ channels }
    requires few { channels ≤ channels_limit }
    ensures { IfOk result (λ list. list ≡ list_arg channels word.now) }
{
    match channel_list(alloc, word, channels) {
        Err(memory) => Err(memory),
        Ok(None) => Ok(Err(ScriptWhy::Number)),
        Ok(Some(list)) => Ok(Ok(list)),
    }
}
