// The record's size, and where each number of the terms and the counts stands and each list starts, counted in numbers. The same names for
// contracts and proofs are in specs/; crate record has the laws that tie them to the runs of the record.
#![tactic(auto)]

pub const RECORD_NUMBERS: usize = 817;

// Every number has 8 bytes, low byte first.
pub const RECORD_BYTES: usize = 8 * RECORD_NUMBERS;

// The terms and the counts, a number each.
pub const GENERATOR_COUNT: usize = 0;

pub const CONSUMER_COUNT: usize = 1;

pub const RATE: usize = 2;

pub const CYCLE: usize = 3;

pub const GONE: usize = 4;

pub const UNIT_BLOCKS: usize = 5;

pub const MONTH_BLOCKS: usize = 6;

// Kind, installed and contracted of each generator, side by side.
pub const AGREED: usize = 7;

// Pair lists, 8 rows of 16.
pub const LINK: usize = 31;

pub const LOSS: usize = 159;

pub const KW: usize = 287;

pub const RANK: usize = 415;

// Totals by generator, 8 each.
pub const INJECTED: usize = 543;

pub const UNACCOUNTED: usize = 551;

pub const LOST: usize = 559;

pub const GENERATOR_SET_OFF: usize = 567;

pub const INADVERTENT: usize = 575;

pub const CHARGE: usize = 583;

pub const GENERATOR_DRAWN: usize = 591;

pub const LAPSED: usize = 599;

pub const BANK: usize = 607;

pub const PENDING: usize = 615;

// Totals by consumer, 16 each.
pub const METERED: usize = 623;

pub const CONSUMER_SET_OFF: usize = 639;

pub const SHORTFALL: usize = 655;

pub const CONSUMER_DRAWN: usize = 671;

pub const SUPPLIED: usize = 687;

pub const OUTSTANDING: usize = 703;

// The switch month and the closings done, a number each.
pub const SWITCH_MONTH: usize = 719;

pub const CLOSINGS: usize = 720;

// Where the bank of each class of hours starts; its pending and its open follow.
pub const OFF_PEAK: usize = 721;

pub const NORMAL: usize = 753;

pub const PEAK: usize = 785;

// The numbers of a class; how far after its start pending starts, and how far open.
pub const CLASS_NUMBERS: usize = 32;

pub const CLASS_PENDING: usize = 8;

pub const CLASS_OUTSTANDING: usize = 16;
