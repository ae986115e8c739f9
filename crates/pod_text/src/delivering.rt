//! Where bytes go.
ghost use Rattle.std.specs.Prelude.{◌≡◌, IfOk};
ghost use Rattle.command_frame.specs.Ending.{IsDeliverable};
ghost use Rattle.pod_text.specs.Delivery.{put_work, store_work, goes_to};
ghost use Rattle.pod_text.specs.Statuses.{statuses};

use crate::words::is_dash;
use command_frame::{Content, Store, Work};
use pw_lists::{Items, Memory, Text};
use std::alloc::Global;

/// Bytes that are put on standard output.
pub(crate) fn put_work(alloc: Global, bytes: Items<u8>) -> Work
    ensures work { result ≡ put_work bytes }
    ensures deliverable { IsDeliverable statuses result }
{
    Work {
        stores: Items::new(alloc),
        text: bytes,
    }
}

// Bytes that are stored under a name, which is the word at this place.
fn store_work(alloc: Global, name: Text, place: u32, bytes: Items<u8>) -> Result<Work, Memory>
    ensures work { IfOk result (λ work. work ≡ store_work name place bytes) }
    ensures deliverable { IfOk result (IsDeliverable statuses) }
{
    let mut stores = Items::new(alloc);
    stores.push(Store {
        place,
        name,
        content: Content::Bytes(bytes),
    })?;
    Ok(Work {
        stores,
        text: Items::new(alloc),
    })
}

/// Bytes that are stored in the file that the word at this place names, or put where it is `-`.
pub(crate) fn goes_to(
    alloc: Global,
    word: Text,
    place: u32,
    bytes: Items<u8>,
) -> Result<Work, Memory>
    ensures work { IfOk result (λ work. work ≡ goes_to word place bytes) }
    ensures deliverable { IfOk result (IsDeliverable statuses) }
{
    if is_dash(word.as_slice()) {
        Ok(put_work(alloc, bytes))
    } else {
        store_work(alloc, word, place, bytes)
    }
}
