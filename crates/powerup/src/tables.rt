// Facts about half-bytes. LASTS has an entry for each half-byte. Every other row has one for each pair of a bit and the half-byte after it, at the
// index 16 × bit + half-byte. The proof compares every entry with its definition.

// How a half-byte goes on from the bit before it.
#[derive(Clone, Copy)]
pub(crate) struct Start {
    // how many of its first bits equal that bit
    pub(crate) lead: u8,
    // the longest run that follows those bits and ends inside the half-byte, 0 if there is none
    pub(crate) inside: u8,
}

pub(crate) const STARTS: [Start; 32] = [
    Start { lead: 4, inside: 0 },
    Start { lead: 3, inside: 0 },
    Start { lead: 2, inside: 1 },
    Start { lead: 2, inside: 0 },
    Start { lead: 1, inside: 1 },
    Start { lead: 1, inside: 1 },
    Start { lead: 1, inside: 2 },
    Start { lead: 1, inside: 0 },
    Start { lead: 0, inside: 1 },
    Start { lead: 0, inside: 2 },
    Start { lead: 0, inside: 1 },
    Start { lead: 0, inside: 1 },
    Start { lead: 0, inside: 2 },
    Start { lead: 0, inside: 2 },
    Start { lead: 0, inside: 3 },
    Start { lead: 0, inside: 0 },
    Start { lead: 0, inside: 0 },
    Start { lead: 0, inside: 3 },
    Start { lead: 0, inside: 2 },
    Start { lead: 0, inside: 2 },
    Start { lead: 0, inside: 1 },
    Start { lead: 0, inside: 1 },
    Start { lead: 0, inside: 2 },
    Start { lead: 0, inside: 1 },
    Start { lead: 1, inside: 0 },
    Start { lead: 1, inside: 2 },
    Start { lead: 1, inside: 1 },
    Start { lead: 1, inside: 1 },
    Start { lead: 2, inside: 0 },
    Start { lead: 2, inside: 1 },
    Start { lead: 3, inside: 0 },
    Start { lead: 4, inside: 0 },
];

// The length of the half-byte's last run.
pub(crate) const LASTS: [u8; 16] = [4, 1, 1, 2, 2, 1, 1, 3, 3, 1, 1, 2, 2, 1, 1, 4];

// How many ones the half-byte has.
pub(crate) const ONES: [u32; 32] = [
    0, 1, 1, 2, 1, 2, 2, 3, 1, 2, 2, 3, 2, 3, 3, 4, 0, 1, 1, 2, 1, 2, 2, 3, 1, 2, 2, 3, 2, 3, 3, 4,
];

// How many runs of zeros, or of ones, of length 1, 2 and 3 lie inside the half-byte: they neither continue the bit before it nor touch its end.
pub(crate) const ZEROS_INSIDE: [[u32; 32]; 3] = [
    [
        0, 0, 0, 0, 0, 1, 0, 0, 0, 0, 1, 1, 0, 1, 0, 0, 0, 0, 0, 0, 1, 2, 1, 1, 0, 0, 1, 1, 0, 1,
        0, 0,
    ],
    [
        0, 0, 0, 0, 0, 0, 0, 0, 0, 1, 0, 0, 0, 0, 0, 0, 0, 0, 1, 1, 0, 0, 0, 0, 0, 1, 0, 0, 0, 0,
        0, 0,
    ],
    [
        0, 0, 0, 0, 0, 0, 0, 0, 0, 0, 0, 0, 0, 0, 0, 0, 0, 1, 0, 0, 0, 0, 0, 0, 0, 0, 0, 0, 0, 0,
        0, 0,
    ],
];

pub(crate) const ONES_INSIDE: [[u32; 32]; 3] = [
    [
        0, 0, 1, 0, 1, 1, 0, 0, 1, 1, 2, 1, 0, 0, 0, 0, 0, 0, 1, 0, 1, 1, 0, 0, 0, 0, 1, 0, 0, 0,
        0, 0,
    ],
    [
        0, 0, 0, 0, 0, 0, 1, 0, 0, 0, 0, 0, 1, 1, 0, 0, 0, 0, 0, 0, 0, 0, 1, 0, 0, 0, 0, 0, 0, 0,
        0, 0,
    ],
    [
        0, 0, 0, 0, 0, 0, 0, 0, 0, 0, 0, 0, 0, 0, 1, 0, 0, 0, 0, 0, 0, 0, 0, 0, 0, 0, 0, 0, 0, 0,
        0, 0,
    ],
];
