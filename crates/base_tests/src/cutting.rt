//! Pieces of a text, a name among names, the next node of an order, and ports and sinks.

use crate::rows::link;
use pw_graph::{Kind, NODES, PortId, find_free, is_same_port, is_sink};
use pw_lists::{Items, Text, next_piece, place_of_name};
use std::test::Fail;

// The piece of a text at a place.
fn piece_at(text: &[u8], mark: u8, place: u32) -> Option<&[u8]> {
    let (mut piece, mut rest) = next_piece(text, mark);
    for _ in 0..place {
        (piece, rest) = next_piece(rest?, mark);
    }
    Some(piece)
}

#[test]
fn a_text_has_one_piece_more_than_marks(rt: HostRuntime) {
    for (place, piece) in [
        (0, Some(b"tick".as_slice())),
        (1, Some(b"".as_slice())),
        (2, Some(b"7".as_slice())),
        (3, None),
    ] {
        assert!(rt;
            piece_at(b"tick  7".as_slice(), b' ', place) == piece,
            "piece {place}"
        );
    }
}

#[test]
fn a_name_stands_at_its_first_place(rt: HostRuntime) -> Result<(), Fail> {
    let mut names: Items<Text> = Items::new(rt.alloc());
    for name in [b"tone".as_slice(), b"mix".as_slice(), b"mix".as_slice()] {
        names.push(Items::from_slice(rt.alloc(), name)?)?;
    }
    assert!(rt; place_of_name(names.as_slice(), b"mix".as_slice()) == Some(1));
    assert!(rt; place_of_name(names.as_slice(), b"mi".as_slice()) == None);
    Ok(())
}

#[test]
fn a_node_is_free_once_its_sources_are_gone(rt: HostRuntime) {
    let chain = [
        link(((0, 1), (2, 0), 1, 2, false)),
        link(((1, 0), (2, 0), 1, 2, false)),
        link(((2, 1), (0, 0), 1, 2, true)),
    ];
    let round = [
        link(((0, 1), (1, 0), 1, 2, false)),
        link(((1, 1), (0, 0), 1, 2, false)),
    ];
    // The links, which of the nodes 0, 1 and 2 are left, and the next node.
    for (row, (links, three, free)) in [
        (chain.as_slice(), [true, true, true], Some(0)),
        (chain.as_slice(), [false, true, true], Some(1)),
        (chain.as_slice(), [false, false, true], Some(2)),
        (chain.as_slice(), [false, false, false], None),
        (round.as_slice(), [true, true, false], None),
    ]
    .iter()
    .enumerate()
    {
        let mut left = [false; NODES];
        left[0] = three[0];
        left[1] = three[1];
        left[2] = three[2];
        assert!(rt; find_free(links, left.as_slice()) == *free, "row {row}");
    }
}

#[test]
fn a_port_is_its_node_and_its_number(rt: HostRuntime) {
    let port = PortId { node: 3, port: 1 };
    assert!(rt; is_same_port(port, PortId { node: 3, port: 1 }));
    assert!(rt; !is_same_port(port, PortId { node: 1, port: 3 }));
    assert!(rt; !is_same_port(port, PortId { node: 3, port: 0 }));
    assert!(rt; is_sink(&Kind::Sink) && !is_sink(&Kind::Meter));
}
