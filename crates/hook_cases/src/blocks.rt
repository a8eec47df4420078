//! Blocks whose words were written down by hand.
use crate::same::same;
use act_kinds::{Control, Params, VlanOp};
use block_codec::{
    StoredFilter, read_action, read_mask, read_table, write_action, write_filter, write_mask,
    write_table,
};
use flow_fields::Key;
use std::test::Fail;
use tc_base::Proto;
use visit_room::{ActionName, Hit, MaskName};

// 2^32, with which a number in the high half of a word counts.
const HIGH: u64 = 1 << 32;

// A block with these first words, and a link to block 8.
fn block_of(named: &[u64]) -> [u64; 40] {
    let mut words = [0; 40];
    for (word, named) in words.iter_mut().zip(named.iter()) {
        *word = *named;
    }
    words[39] = 9;
    words
}

#[test]
fn filter(rt: HostRuntime) {
    let words = block_of(&[
        1,
        7,
        2,
        10,
        11,
        12,
        13,
        14,
        15,
        16,
        17,
        18,
        19,
        20,
        21,
        22,
        23,
        5 + 2 * HIGH,
        16_384 + 2_047 * HIGH,
    ]);
    let mut actions = Hit::new();
    actions.push(ActionName { serial: 5, slot: 2 });
    actions.push(ActionName {
        serial: 16_384,
        slot: 2_047,
    });
    let stored = StoredFilter {
        handle: 7,
        key: Key {
            words: [10, 11, 12, 13, 14, 15, 16, 17, 18, 19, 20, 21, 22, 23],
        },
        actions,
    };
    let mut written = [1; 40];
    write_filter(&stored, Some(8), &mut written);
    same(&rt, written, words);
}

#[test]
fn mask(rt: HostRuntime) -> Result<(), Fail> {
    let words = block_of(&[
        2,
        6,
        32,
        1,
        2,
        3,
        4,
        5,
        6,
        7,
        8,
        9,
        10,
        11,
        12,
        13,
        14,
        300 + 8_191 * 65_536,
    ]);
    let Some((stored, link)) = read_mask(&words) else {
        return Err(Fail::new("no mask"));
    };
    same(&rt, (stored.serial, stored.size, link), (6, 32, Some(8)));
    same(
        &rt,
        stored.mask.words,
        [1, 2, 3, 4, 5, 6, 7, 8, 9, 10, 11, 12, 13, 14],
    );
    same(&rt, stored.rows.items(), [300, 8_191].as_slice());
    let mut again = [1; 40];
    write_mask(&stored, link, &mut again);
    same(&rt, again, words);
    Ok(())
}

#[test]
fn table(rt: HostRuntime) -> Result<(), Fail> {
    let words = block_of(&[
        3,
        4 + 65_535 * HIGH,
        268_435_455 + 65_536 * HIGH,
        1,
        6 + 8_191 * HIGH,
    ]);
    let Some((stored, link)) = read_table(&words) else {
        return Err(Fail::new("no table"));
    };
    same(
        &rt,
        (stored.serial, stored.pref, stored.chain),
        (4, 65_535, 268_435_455),
    );
    same(&rt, (stored.protocol, link), (Proto::All, Some(8)));
    same(
        &rt,
        stored.masks.items(),
        [MaskName {
            serial: 6,
            slot: 8_191,
        }]
        .as_slice(),
    );
    let mut again = [1; 40];
    write_table(&stored, link, &mut again);
    same(&rt, again, words);
    Ok(())
}

// The parameters of an action with these words, which are written back as they were.
fn params_in(words: [u64; 5]) -> Option<Params> {
    let block = block_of(&[
        4,
        3 + 100 * HIGH,
        words[0],
        words[1],
        words[2],
        words[3],
        words[4],
    ]);
    let (stored, link) = read_action(&block)?;
    let mut again = [1; 40];
    write_action(&stored, link, &mut again);
    if again == block && stored.serial == 3 && stored.index == 100 {
        Some(stored.params)
    } else {
        None
    }
}

const PUSH: VlanOp = VlanOp::Push {
    tpid: 0x88A8,
    id: 100,
    priority: 5,
};

const MODIFY: VlanOp = VlanOp::Modify {
    tpid: 0x8100,
    id: 7,
    priority: None,
};

const MARKS: Params = Params::Skbedit {
    priority: None,
    mark: Some(0),
    queue: Some(9),
    control: Control::Unspec,
};

// Words with the parameters in them. A push has a priority, a place has no control but jump and goto, and what
// isn't given is 0.
const PARAMS: &[([u64; 5], Option<Params>)] = &[
    ([1, 2, 0, 0, 0], Some(Params::Gact(Control::Shot))),
    (
        [1, 6 + 3 * HIGH, 0, 0, 0],
        Some(Params::Gact(Control::Jump(3))),
    ),
    ([1, 7, 0, 0, 0], Some(Params::Gact(Control::Goto(0)))),
    (
        [2, 5, 1, 100 + 0x88A8 * HIGH, 6],
        Some(Params::Vlan(PUSH, Control::Reclassify)),
    ),
    (
        [2, 4, 2, 0, 0],
        Some(Params::Vlan(VlanOp::Pop, Control::Pipe)),
    ),
    (
        [2, 1, 3, 7 + 0x8100 * HIGH, 0],
        Some(Params::Vlan(MODIFY, Control::Accept)),
    ),
    ([3, 3, 6, 0, 9], Some(MARKS)),
    ([2, 5, 1, 100, 0], None),
    ([1, 2 + 3 * HIGH, 0, 0, 0], None),
    ([3, 3, 2, 1, 0], None),
    ([4, 1, 0, 0, 0], None),
];

#[test]
fn actions(rt: HostRuntime) {
    for (words, params) in PARAMS {
        same(&rt, params_in(*words), *params);
    }
}
