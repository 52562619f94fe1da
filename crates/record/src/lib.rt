// The record of one unit, as the calls take and return it by value: 8 and 16 places always, every number a u64.
#![tactic(auto)]

// counts of generators and consumers, and the bank's terms: fixed at opening
#[derive(Clone, Copy)]
pub struct Terms {
    pub generators: u64,
    pub consumers: u64,
    pub rate: u64,
    pub cycle: u64,
}

// months gone in the cycle, blocks of the unit, blocks of the month
#[derive(Clone, Copy)]
pub struct Counts {
    pub gone: u64,
    pub unitblocks: u64,
    pub monthblocks: u64,
}

// what is agreed of each generator
#[derive(Clone, Copy)]
pub struct Agreed {
    pub kind: [u64; 8],
    pub installed: [u64; 8],
    pub contracted: [u64; 8],
}

// what is agreed of each pair; a pair list has 16 places a row
#[derive(Clone, Copy)]
pub struct Links {
    pub link: [u64; 128],
    pub loss: [u64; 128],
}

// the schedule that stands
#[derive(Clone, Copy)]
pub struct Schedule {
    pub kw: [u64; 128],
    pub rank: [u64; 128],
}

// the terms of the generator equation, in its order; document 01's loss is lost here
#[derive(Clone, Copy)]
pub struct Generators {
    pub injected: [u64; 8],
    pub unaccounted: [u64; 8],
    pub lost: [u64; 8],
    pub setoff: [u64; 8],
    pub inadvertent: [u64; 8],
    pub charge: [u64; 8],
    pub drawn: [u64; 8],
    pub lapsed: [u64; 8],
    pub bank: [u64; 8],
    pub pending: [u64; 8],
}

// the terms of the consumer equation, in its order; document 01's open is outstanding here
#[derive(Clone, Copy)]
pub struct Consumers {
    pub metered: [u64; 16],
    pub setoff: [u64; 16],
    pub shortfall: [u64; 16],
    pub drawn: [u64; 16],
    pub supplied: [u64; 16],
    pub outstanding: [u64; 16],
}

// the switch month of the bank by hours, 0 for never, and the closings done since the opening
#[derive(Clone, Copy)]
pub struct Switch {
    pub month: u64,
    pub closings: u64,
}

// what is held of one class of hours: bank and pending by generator, open by consumer
#[derive(Clone, Copy)]
pub struct Stocks {
    pub bank: [u64; 8],
    pub pending: [u64; 8],
    pub outstanding: [u64; 16],
}

#[derive(Clone, Copy)]
pub struct Record {
    pub terms: Terms,
    pub counts: Counts,
    pub agreed: Agreed,
    pub links: Links,
    pub schedule: Schedule,
    pub generators: Generators,
    pub consumers: Consumers,
    pub switch: Switch,
    pub offpeak: Stocks,
    pub normal: Stocks,
    pub peak: Stocks,
}

// what a call returns: its number on the display, and the record after it
#[derive(Clone, Copy)]
pub struct Answer {
    pub number: u32,
    pub after: Record,
}

// one generator's terms, named as in Generators
#[derive(Clone, Copy)]
pub struct GeneratorTerms {
    pub injected: u64,
    pub unaccounted: u64,
    pub lost: u64,
    pub setoff: u64,
    pub inadvertent: u64,
    pub charge: u64,
    pub drawn: u64,
    pub lapsed: u64,
    pub bank: u64,
    pub pending: u64,
}

// one consumer's terms, named as in Consumers
#[derive(Clone, Copy)]
pub struct ConsumerTerms {
    pub metered: u64,
    pub setoff: u64,
    pub shortfall: u64,
    pub drawn: u64,
    pub supplied: u64,
    pub outstanding: u64,
}

// ---- the limits that document 01 names; those of a reading and of a capacity are in crate energy

pub const MOST_GENERATORS: u64 = 8;

pub const MOST_CONSUMERS: u64 = 16;

// kinds are 0 scheduled, 1 wind, 2 mini-hydel, 3 solar
pub const LAST_KIND: u64 = 3;

// loss of a pair and charge rate of the bank, in hundredths of a percent
pub const MOST_LOSS: u64 = 5_000;

pub const MOST_RATE: u64 = 5_000;

// months of a cycle
pub const MOST_CYCLE: u64 = 12;

pub const MOST_RANK: u64 = 255;

// blocks in one month, and in the life of a unit
pub const MOST_MONTH_BLOCKS: u64 = 3_360;

pub const MOST_UNIT_BLOCKS: u64 = 10_000_000;

// the latest switch month of the bank by hours
pub const MOST_SWITCH: u64 = 1_200;
