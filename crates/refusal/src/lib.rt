// Why a call is refused, and the number of each refusal on the display. A call that can be refused answers a `Result` with this as its error.
#![tactic(auto)]

ghost use Rattle.std.specs.Prelude.{◌≡◌};
ghost use Rattle.refusal.specs.Numbers.{number_of, shown};

// In the order of their numbers, and named as the C header names them.
#[derive(Clone, Copy, Debug, PartialEq, Eq)]
pub enum Refusal {
    NotSound,
    WrongSize,
    WrongKind,
    WrongCapacity,
    WrongLink,
    WrongTerms,
    NotLinked,
    OverCapacity,
    WrongRank,
    ReadingTooHigh,
    MonthFull,
    UnitFull,
    MonthEmpty,
    WrongNames,
    WrongLine,
    NoRoom,
    BothIncomplete,
    WrongSwitchMonth,
}

impl Refusal {
    // The number on the display.
    pub fn number(self) -> u32
        ensures { result ≡ number_of self }
    {
        match self {
            Refusal::NotSound => 1,
            Refusal::WrongSize => 2,
            Refusal::WrongKind => 3,
            Refusal::WrongCapacity => 4,
            Refusal::WrongLink => 5,
            Refusal::WrongTerms => 6,
            Refusal::NotLinked => 7,
            Refusal::OverCapacity => 8,
            Refusal::WrongRank => 9,
            Refusal::ReadingTooHigh => 10,
            Refusal::MonthFull => 11,
            Refusal::UnitFull => 12,
            Refusal::MonthEmpty => 13,
            Refusal::WrongNames => 14,
            Refusal::WrongLine => 15,
            Refusal::NoRoom => 16,
            Refusal::BothIncomplete => 17,
            Refusal::WrongSwitchMonth => 19,
        }
    }
}

// What a call shows: 0 where it is accepted.
pub fn shown(outcome: Result<(), Refusal>) -> u32
    ensures { result ≡ shown outcome }
{
    match outcome {
        Ok(()) => 0,
        Err(refusal) => refusal.number(),
    }
}
