//! Where the follower of a node is among those of a loop, as a guess that is looked at first.

use crate::member::Member;
use pw_lists::{Items, Memory};
use std::alloc::Global;

// Of so many followers a look at each takes no longer.
const FEW: usize = 8;

// Of each node's number below 64 the index of its follower.
fn fill(guesses: &mut Vec<u8>, members: &[Member]) {
    for index in 0..members.len().min(256) {
        if let Some(guess) = guesses.get_mut(members[index].node as usize) {
            *guess = index as u8;
        }
    }
}

/// The guesses of followers, empty where they are few. No clause says that a guess is right.
///
/// Memory: 64 bytes where there are more than eight followers.
pub(crate) fn guesses_of(alloc: Global, members: &[Member]) -> Result<Items<u8>, Memory> {
    if members.len() <= FEW {
        return Ok(Items::new(alloc));
    }
    let mut guesses = Vec::from_elem(alloc, u8::MAX, 64)?;
    fill(&mut guesses, members);
    Ok(Items::from_vec(guesses))
}

/// The guess of a node; past all followers where there is none.
pub(crate) fn guess_in(guesses: &[u8], node: u32) -> usize {
    match guesses.get(node as usize) {
        Some(guess) => usize::from(*guess),
        None => usize::MAX,
    }
}
