// What the two couriers do with the frames of the round. A take with frames that wait uses one pick. Below 128 it
// answers the frame at that place, which stays and may come again; from 128 on it removes one, and nothing comes. A
// place is counted from 0, modulo the number of frames that wait.

// Toward the office. The first offer of site 0, with the corrected height, is lost. The first offer of site 1 comes
// late, after the second was answered and the round has gone on.
pub(crate) const TO_OFFICE: [u8; 11] = [
    0, // the question of range 1
    1, // the question of range 2
    128, // removes the question of range 1, which was answered
    129, // removes the offer of site 0
    1, // the second offer of site 0
    129, // removes the question of range 2, which was answered, while the offer of site 1 waits
    2, // the second offer of site 1
    1, // the first offer of site 1
    3, // the question of range 3
    4, // the offer of site 2
    5, // the offer of site 3
];

// Toward the laptop. The answer of range 1 comes twice, and that of range 2 has to wait for it.
pub(crate) const TO_LAPTOP: [u8; 11] = [
    0, // range 1 differs
    0, // range 1 differs, again
    1, // range 2 differs
    128, // removes the answer of range 1
    1, // what the office holds at site 0
    128, // removes the answer of range 2
    1, // what the office holds at site 1
    2, // what the office holds at site 1, in answer to the offer that came late
    3, // range 3 differs
    4, // what the office holds at site 2
    5, // what the office holds at site 3
];
