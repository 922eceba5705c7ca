// The cases, and the scripts of those that run over couriers. The tables of cases are functions, since a constant's value
// may not call `Case::new`.
use crate::cases::{Case, Opens, Sides};
use crate::scripted::Script;

// Under sum some of these have collisions: a range is answered with same although it differs, and the round is complete
// while keys still differ.
pub(crate) fn small_cases() -> [Case; 9] {
    [
        Case::new(0, &[], &[], Opens::Left),
        Case::new(0, &[0], &[0], Opens::Right),
        Case::new(1, &[1], &[], Opens::Left),
        Case::new(3, &[], &[], Opens::Both),
        Case::new(3, &[1, 6], &[3], Opens::Left),
        Case::new(3, &[1, 6], &[3], Opens::Both),
        Case::new(3, &[0, 2], &[3, 4], Opens::Right),
        Case::new(3, &[0, 1], &[2, 4], Opens::Left),
        Case::new(3, &[0, 2, 4, 6], &[1, 3, 5, 7], Opens::Left),
    ]
}

// The cases of 4,096 keys.
pub(crate) fn large_cases() -> [Case; 3] {
    [
        Case::new(12, &[], &[], Opens::Left),
        Case::new(12, &[2047], &[], Opens::Left),
        Case::new(
            12,
            &[0, 7, 1023, 1024, 2048, 3000, 4094, 4095],
            &[1, 500, 777, 1500, 2047, 2049, 3333, 4000],
            Opens::Left,
        ),
    ]
}

// Questions and answers are lost, and the round is complete in the end.
pub(crate) const LOSSY: Script = Script {
    case: Case {
        depth: 0,
        corrected: Sides {
            left: &[0],
            right: &[],
        },
        opens: Opens::Left,
    },
    again: None,
    turns: 8,
    to_left: b"\xde\xdf\xbd\x58\x7c\x1b",
    to_right: b"\x11\x59\x3c\xd5\xcc\x16\xc9\xf7",
};

// Frames come again and late: an answer that came before is stale.
pub(crate) const REPEATING: Script = Script {
    case: Case {
        depth: 1,
        corrected: Sides {
            left: &[1],
            right: &[0],
        },
        opens: Opens::Left,
    },
    again: None,
    turns: 14,
    to_left: b"\xc3\xc4\x44\x1d\x74\x2f\xc3\xce\x7e\x1b\x32\x6d",
    to_right: b"\x7c\x88\x55\xd5\x3e\x3c\x4f\xec\xa1\x2f\x30\x77\xd1\x73",
};

// No answer ever comes.
pub(crate) const SILENT: Script = Script {
    case: Case {
        depth: 1,
        corrected: Sides {
            left: &[1],
            right: &[0],
        },
        opens: Opens::Left,
    },
    again: None,
    turns: 4,
    to_left: &[],
    to_right: b"\x00",
};

// The left end gives its first round up. A late question of that round is still answered, and the answer is stale.
pub(crate) const RENEWED: Script = Script {
    case: Case {
        depth: 3,
        corrected: Sides {
            left: &[1, 6],
            right: &[3],
        },
        opens: Opens::Left,
    },
    again: Some(3),
    turns: 24,
    to_left: b"\x9a\x76\xc8\x61\x57\x3b\x47\x4a\x35\x68\x88\xe1\x5f\xa8\x74\x09\x09\x2b\x77\x33\x40\x61",
    to_right: b"\xa3\x10\x33\xa4\x97\x59\x3f\x1d\x47\x1b\x0f\x50\x13\x20\x0b\x0c\x7d\x2c\xd3\x2c\x0f\x10\xca\x1f",
};

// Both ends open a round of the same number at once.
pub(crate) const CROSSING: Script = Script {
    case: Case {
        depth: 1,
        corrected: Sides {
            left: &[0],
            right: &[1],
        },
        opens: Opens::Both,
    },
    again: None,
    turns: 20,
    to_left: b"\x90\x7b\x5f\x1b\x72\xc4\x02\x06\x61\x76\x23\x3b\xf9\x24\xd5\x3c\x20\x2b\x5d\x15",
    to_right: b"\xbd\x7d\x17\xd9\x4d\x13\x22\x51\x02\x82\x3f\x17\x13\xee\x3f\xe4\x3b\x47\x62\x68",
};

// A walk to two keys that differ.
pub(crate) const LONG: Script = Script {
    case: Case {
        depth: 3,
        corrected: Sides {
            left: &[2],
            right: &[5],
        },
        opens: Opens::Left,
    },
    again: None,
    turns: 22,
    to_left: b"\x31\x6d\x51\x6b\x24\x1d\xfb\x41\x68\x4f\xe7\xa7\x5f\x2c\x22\x2b\xf1\x6d\x6b\x0c\x29",
    to_right: b"\xa0\x55\x6f\x8e\x76\x19\x63\x0b\x2f\x13\x41\x29\x0f\x99\x23\x13\x59\xb1\x57\x2f\x6b\x55",
};
