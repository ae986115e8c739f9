//! Runs by started workers of more cells than 32: each of them is found, also where its sign is
//! not.

use crate::runs::{RunRow, row_goes};
use plan_support::WorkRow;
use std::alloc::Global;
use std::sync::Wait;
use std::test::Fail;
use std::thread::Threads;

/// How many squares there are, each a cell, and what their sink keeps in two cycles of two frames:
/// the sum of all, first up and then down.
#[derive(Clone, Copy, Drop)]
struct CellRow {
    cells: u32,
    kept: [i16; 4],
}

/// The first is the least number of cells that half a word of signs does not hold, the last the
/// greatest beside a driver.
const ROWS: [CellRow; 3] = [
    CellRow {
        cells: 33,
        kept: [165, 165, -165, -165],
    },
    CellRow {
        cells: 45,
        kept: [225, 225, -225, -225],
    },
    CellRow {
        cells: 62,
        kept: [310, 310, -310, -310],
    },
];

// A script of so many squares, and the sink that drives.
fn script_of(alloc: Global, cells: u32) -> Result<String, Fail> {
    let mut text = String::from_str(alloc, "quantum 2\nsink o o.wav\ndriver o 1\n")?;
    for number in 0..cells {
        let square = format!(in alloc; "square s{number} 48000 1 4 5\nlink s{number}.out o.in\n")?;
        text.push_str(square.as_str())?;
    }
    text.push_str("cycles 2\n")?;
    Ok(text)
}

// Whether a row goes so by one, two and four workers, all of which are started.
fn cells_are_found<R: Threads + Wait + Sync>(
    rt: &R,
    alloc: Global,
    row: CellRow,
) -> Result<bool, Fail> {
    let text = script_of(alloc, row.cells)?;
    let runs = RunRow {
        work: WorkRow {
            text: text.as_str(),
            channels: 0,
            samples: &[],
        },
        choices: &[&[false], &[false; 2], &[false; 4]],
        boards: 1,
        kept: &[&row.kept],
    };
    Ok(row_goes(rt, alloc, &runs))
}

#[test]
fn each_of_many_cells_is_found_by_workers(rt: HostRuntime) -> Result<(), Fail> {
    for row in ROWS {
        assert!(rt; cells_are_found(&rt, rt.alloc(), row)?);
    }
    Ok(())
}
