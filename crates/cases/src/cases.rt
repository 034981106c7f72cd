// Worked cases: what is known of each fluent at each moment, as one table.
ghost use Rattle.std.specs.Prelude.{◌≡◌, is_some, nat_lt};
ghost use Rattle.cases.specs.Cases.{AllStand};

use literals::set::Literal;

// A packed domain, orders, told facts (moment and literal), and what is known: a row for each fluent, with a mark for each moment. A mark
// says that the fluent is known true or known false; `None` is neither.
#[derive(Clone, Copy)]
pub struct Case {
    pub domain: &'static [u8],
    pub orders: &'static [u8],
    pub told: &'static [(usize, Literal)],
    pub rows: &'static [&'static [Option<bool>]],
    // Whether a world agrees.
    pub agreeing: bool,
}

// Fluent 0 is "in basin", false at first, 1 is "gate open"; action 0 goes in if the gate is open, action 1 senses fluent 0.
const WORKED: &[u8] = &[0x10, 0x88, 0x20, 0x00, 0x04, 0x86, 0x0c, 0x00, 0x02, 0x08];

// Fluent 0 is "in", false at first, 1 and 2 are gates; actions 0 and 1 go in by one gate each, if it is open.
const GATES: &[u8] = &[
    0x11, 0x08, 0x20, 0x00, 0x04, 0x86, 0x08, 0x04, 0x8a, 0x08, 0x00,
];

// Exactly one of a and b is true, and exactly one of a and not b: no world is so.
const PAIRS: &[u8] = &[0x10, 0x80, 0x04, 0x40, 0x86, 0x40, 0x84, 0x00, 0x00];

// The cases, by number.
const CASES: &[Case; 9] = &[
    Case {
        domain: WORKED,
        orders: &[0, 1],
        told: &[(1, 1)],
        rows: &[
            &[Some(false), Some(true), Some(true)],
            &[Some(true), Some(true), Some(true)],
        ],
        agreeing: true,
    },
    Case {
        domain: WORKED,
        orders: &[0, 1],
        told: &[(1, 0)],
        rows: &[
            &[Some(false), Some(false), Some(false)],
            &[Some(false), Some(false), Some(false)],
        ],
        agreeing: true,
    },
    Case {
        domain: WORKED,
        orders: &[0],
        told: &[(1, 1)],
        rows: &[&[Some(false), Some(true)], &[Some(true), Some(true)]],
        agreeing: true,
    },
    Case {
        domain: WORKED,
        orders: &[0],
        told: &[(0, 3)],
        rows: &[&[Some(false), Some(true)], &[Some(true), Some(true)]],
        agreeing: true,
    },
    Case {
        domain: WORKED,
        orders: &[0],
        told: &[(1, 1), (0, 3)],
        rows: &[&[Some(false), Some(true)], &[Some(true), Some(true)]],
        agreeing: true,
    },
    Case {
        domain: WORKED,
        orders: &[0],
        told: &[],
        rows: &[&[Some(false), None], &[None, None]],
        agreeing: true,
    },
    Case {
        domain: GATES,
        orders: &[0, 1],
        told: &[(2, 1)],
        rows: &[
            &[Some(false), None, Some(true)],
            &[None, None, None],
            &[None, None, None],
        ],
        agreeing: true,
    },
    Case {
        domain: GATES,
        orders: &[0, 1],
        told: &[(2, 0)],
        rows: &[
            &[Some(false), Some(false), Some(false)],
            &[Some(false), Some(false), Some(false)],
            &[Some(false), Some(false), Some(false)],
        ],
        agreeing: true,
    },
    Case {
        domain: PAIRS,
        orders: &[],
        told: &[],
        rows: &[&[None], &[None]],
        agreeing: false,
    },
];

// The case of a number, or none past the last.
pub fn case_of(number: u8) -> Option<Case>
    ensures stands { AllStand result }
    ensures many { is_some result ≡ nat_lt number 9 }
{
    // `as_slice` gives the table a name that the proof can cite.
    CASES.as_slice().get(usize::from(number)).copied()
}
