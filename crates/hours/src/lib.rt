// When the bank goes by hours, and the class of a block: the tests on numbers that may be anything.
#![tactic(auto)]

ghost use Rattle.std.specs.Prelude.{◌≡◌, ◌+◌, ◌*◌};
ghost use Rattle.record_places.specs.Laws.Places.{off_peak_at};
ghost use Rattle.record.specs.Hours.{slot_after, class_of_slot, hours_apply, before_switch};
ghost use Rattle.hours.specs.Laws.Classes.{class_numbers, number_of};

use record::Switch;

// The classes of hours, in the order in which they are settled and stored.
#[derive(Clone, Copy, Debug, PartialEq, Eq)]
pub enum HourClass {
    OffPeak,
    Normal,
    Peak,
}

impl HourClass {
    // Where the record has it: the place of its bank, which its pending and its open follow.
    pub fn start(self) -> usize
        ensures { result ≡ off_peak_at + class_numbers * number_of self }
    {
        match self {
            HourClass::OffPeak => record_places::OFF_PEAK,
            HourClass::Normal => record_places::NORMAL,
            HourClass::Peak => record_places::PEAK,
        }
    }
}

// Whether the next closing, and the blocks until then, go by hours: nothing is added, since the closings done may be any number.
#[tactic(auto, unfolding(record::specs::Hours::hours_apply))]
pub fn apply(switch: Switch) -> bool
    ensures { result ≡ hours_apply switch.month switch.closings }
{
    switch.month > 0 && switch.month - 1 <= switch.closings
}

// Whether the next closing is the one just before the switch month.
#[tactic(auto, unfolding(record::specs::Hours::before_switch))]
pub fn before_switch(switch: Switch) -> bool
    ensures { result ≡ before_switch switch.month switch.closings }
{
    switch.month > 1 && switch.closings == switch.month - 2
}

// The class of the block that is entered where its month holds so many.
#[tactic(auto, unfolding(record::specs::Hours::slot_after, record::specs::Hours::class_of_slot, lists::specs::Tests::within))]
pub fn class_after(month: u64) -> HourClass
    ensures { number_of result ≡ class_of_slot (slot_after month) }
{
    let slot = month % 96 + 1;
    match slot {
        37..=68 => HourClass::OffPeak,
        21..=36 | 77..=92 => HourClass::Peak,
        _ => HourClass::Normal,
    }
}
