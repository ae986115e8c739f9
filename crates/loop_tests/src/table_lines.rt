//! The words of a board of four nodes and three links as a line of a table: pending, status, areas,
//! and the blocks of two pools, each with its readers and four samples. The second link is late.
ghost use Rattle.std.specs.Prelude.{◌≡◌, ◌<◌, length};

use board_rule::Board;
use graph_checks::is_pooled_shape;
use pw_graph::{NO_BLOCK, io_id_of, io_status_of};
use pw_lists::{Items, Memory, Text, append_decimal};
use std::alloc::Global;

// A word of a node or of an area.
fn word_at(board: &Board, at: usize) -> u64
    requires nodes { length board.now.board_shape.shape.nodes ≡ 4 }
    requires inside { at < 13 }
{
    board.peek(at)
}

// A cell of four words of nodes.
fn push_nodes(line: &mut Text, board: &Board, first: usize) -> Result<(), Memory>
    requires nodes { length board.now.board_shape.shape.nodes ≡ 4 }
    requires inside { first < 6 }
{
    line.push(b'|')?;
    for at in 0..4usize {
        line.push(b' ')?;
        append_decimal(line, word_at(board, first + at))?;
    }
    line.push(b' ')
}

// The word of an area: what it says, and of which block.
fn push_area(line: &mut Text, word: u64) -> Result<(), Memory> {
    if io_status_of(word) == 2 {
        line.extend(b"have ".as_slice())?;
    } else {
        line.extend(b"need ".as_slice())?;
    }
    if io_id_of(word) == NO_BLOCK {
        line.push(b'-')
    } else {
        append_decimal(line, io_id_of(word) as u64)
    }
}

// The cells of all areas.
fn push_areas(line: &mut Text, board: &Board) -> Result<(), Memory>
    requires nodes { length board.now.board_shape.shape.nodes ≡ 4 }
{
    line.extend(b"| ".as_slice())?;
    push_area(line, word_at(board, 9))?;
    line.extend(b" | ".as_slice())?;
    push_area(line, word_at(board, 10))?;
    line.extend(b", ".as_slice())?;
    push_area(line, word_at(board, 11))?;
    line.extend(b" | ".as_slice())?;
    push_area(line, word_at(board, 12))?;
    line.push(b' ')
}

// A sample, by its 16 bits.
fn push_sample(line: &mut Text, bits: u16) -> Result<(), Memory> {
    let sample = bits.cast_signed();
    line.push(b' ')?;
    if sample < 0 {
        line.push(b'-')?;
    }
    append_decimal(line, u64::from(sample.unsigned_abs()))
}

// The four samples of a word, the first in its lowest 16 bits.
fn push_samples(line: &mut Text, word: u64) -> Result<(), Memory> {
    push_sample(line, (word % 65536) as u16)?;
    push_sample(line, (word / 65536 % 65536) as u16)?;
    push_sample(line, (word / 4294967296 % 65536) as u16)?;
    push_sample(line, (word / 281474976710656) as u16)
}

// The readers and the samples of a block of the pool that a link reads; nothing where there is
// none.
fn push_block(line: &mut Text, board: &Board, link: u32, id: u32) -> Result<(), Memory> {
    if !is_pooled_shape(board.shape()) || link as usize >= board.shape().links.len() {
        return Ok(());
    }
    let pool = board.link_pool(link);
    if id >= board.block_count(pool) || board.block_words(pool) == 0 {
        return Ok(());
    }
    let first = board.first_sample(pool, id);
    append_decimal(line, board.peek(first - 1))?;
    line.push(b':')?;
    push_samples(line, board.peek(first))
}

// The cell of the blocks of such a pool.
fn push_pool(line: &mut Text, board: &Board, link: u32) -> Result<(), Memory> {
    line.extend(b"| ".as_slice())?;
    push_block(line, board, link, 0)?;
    line.extend(b"; ".as_slice())?;
    push_block(line, board, link, 1)?;
    line.push(b' ')
}

// All cells of words.
fn cells(alloc: Global, board: &Board) -> Result<Text, Memory>
    requires nodes { length board.now.board_shape.shape.nodes ≡ 4 }
{
    let mut line = Items::new(alloc);
    push_nodes(&mut line, board, 1)?;
    push_nodes(&mut line, board, 5)?;
    push_areas(&mut line, board)?;
    push_pool(&mut line, board, 0)?;
    push_pool(&mut line, board, 2)?;
    line.push(b'|')?;
    Ok(line)
}

// What is after the first cell of a line.
fn behind_first(line: &[u8]) -> &[u8] {
    match line {
        [] => line,
        [_bar, rest @ ..] => {
            let cell = rest.iter().take_while(|b| **b != b'|').count();
            rest.split_at(cell).1
        }
    }
}

// Whether a text begins with another.
fn begins_with(text: &[u8], front: &[u8]) -> bool {
    text.len() >= front.len() && text.split_at(front.len()).0 == front
}

/// Whether the cells of a line after its first one are the words of the board. False where memory
/// is short, or the board has another number of nodes.
pub(crate) fn line_is(alloc: Global, board: &Board, line: &str) -> bool {
    if board.shape().nodes.len() != 4 {
        return false;
    }
    match cells(alloc, board) {
        Ok(words) => begins_with(behind_first(line.as_bytes()), words.as_slice()),
        Err(Memory) => false,
    }
}
