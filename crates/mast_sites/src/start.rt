// The two copies as the demos begin with them.
use crate::copies::Copies;
use crate::sites::Sites;
use element::Pair;
use kinds::{Counter, Register, SetRecord};

// The card of a height in centimetres, with its stamp and office, positions added and removed, and field samples. It is
// a macro since a constant's value may call no function.
macro_rules! card {
    ($stamp:literal, $office:literal, $value:literal; $added:literal, $removed:literal; $seats:expr) => {
        Pair {
            first: Register {
                stamp: $stamp,
                office: $office,
                value: $value,
            },
            second: Pair {
                first: SetRecord {
                    added: $added,
                    removed: $removed,
                },
                second: Counter { seats: $seats },
            },
        }
    };
}

// The office entered the height of site 0 above sea level, and does not know of site 3. The laptop corrected that
// height, removed position 1 of site 1, counted samples in the field and found a new mast.
pub const BEFORE: Copies = Copies {
    office: Sites {
        cards: [
            card!(100, 7, 41250; 1, 0; [12, 0, 0, 0, 0, 0, 0, 0]),
            card!(101, 7, 2480; 7, 0; [5, 0, 0, 0, 0, 0, 0, 0]),
            card!(90, 0, 6000; 3, 0; [31, 2, 0, 0, 0, 0, 0, 0]),
            card!(0, 0, 0; 0, 0; [0, 0, 0, 0, 0, 0, 0, 0]),
        ],
    },
    laptop: Sites {
        cards: [
            card!(120, 7, 3050; 1, 0; [12, 0, 0, 0, 0, 0, 0, 0]),
            card!(101, 7, 2480; 7, 2; [5, 0, 0, 9, 0, 0, 0, 0]),
            card!(90, 0, 6000; 3, 0; [30, 0, 0, 14, 0, 0, 0, 0]),
            card!(118, 3, 3600; 5, 0; [0, 0, 0, 4, 0, 0, 0, 0]),
        ],
    },
};
