//! Words that stand for events and statuses, and numbers at the end of a text.

use pw_graph::{
    ActivationStatus, AreaStatus, Event, NO_BLOCK, cycle_of, event_of, event_word, io_id_of,
    io_status_of, io_word, status_of, status_word,
};
use pw_lists::{Items, append_decimal};
use std::test::Fail;

#[test]
fn words_stand_for_events_statuses_and_areas(rt: HostRuntime) {
    let start = Event::Start { cycle: 1, node: 2 };
    assert_eq!(rt; event_word(&start), 530);
    let tick = Event::Tick { cycle: 7, late: 5 };
    for (event, late) in [(start, 9), (tick, 5)] {
        assert!(rt; event_of(event_word(&event), late) == event, "late {late}");
    }
    let need = io_word(AreaStatus::NeedData.number(), NO_BLOCK);
    let have = io_word(AreaStatus::HaveData.number(), 1);
    assert_eq!(rt;
        (need, have, io_status_of(have), io_id_of(have)),
        (18_446_744_069_414_584_321, 4_294_967_298, 2, 1)
    );
    let word = status_word(ActivationStatus::Finished.number(), 8);
    assert_eq!(rt; (word, status_of(word), cycle_of(word)), (35, 3, 8));
}

#[test]
fn statuses_have_their_numbers(rt: HostRuntime) {
    assert!(rt;
        ActivationStatus::from_number(1) == Some(ActivationStatus::Triggered)
            && ActivationStatus::from_number(4) == None
    );
    assert!(rt;
        AreaStatus::from_number(2) == Some(AreaStatus::HaveData)
            && AreaStatus::from_number(3) == None
    );
}

#[test]
fn numbers_are_appended_in_decimal(rt: HostRuntime) -> Result<(), Fail> {
    let mut text = Items::from_slice(rt.alloc(), b"n ")?;
    for number in [0, 4096, u64::MAX] {
        append_decimal(&mut text, number)?;
    }
    assert!(rt; text.as_slice() == b"n 0409618446744073709551615".as_slice());
    Ok(())
}
