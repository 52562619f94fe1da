// A day of readings from a main and a check meter on the same line: which of the two is to be used, and in how many blocks they are apart.
#![tactic(auto)]

ghost use Rattle.std.specs.Prelude.{◌≡◌, length, IfOk};
ghost use Rattle.refusal.specs.Numbers.{shown};
ghost use Rattle.check_meter.specs.CheckMeter.{day_blocks, further_apart, stretch_of, day_number, DayHandedBack};
ghost use Rattle.check_meter.specs.Laws.DaysScanned.{found_in};
ghost use Rattle.check_meter.specs.Laws.DaysCompared.{comparison};

use refusal::Refusal;

// What stands in the place of a missing reading.
pub const MISSING: u32 = 4_294_967_295;

// Readings in a day, one for each block.
pub const DAY_BLOCKS: usize = 96;

#[derive(Clone, Copy, Debug, PartialEq, Eq)]
pub enum Meter {
    Main,
    Check,
}

// What two days that are accepted give together: the meter whose day is to be used, and in how many blocks the two are apart.
#[derive(Clone, Copy, Debug, PartialEq, Eq)]
pub struct Comparison {
    pub meter: Meter,
    pub apart: u32,
}

// What two days give back: whether they are refused; the day to be used, a part of what the caller lent; and in how many blocks the two days are
// apart. Of refused days the part is an empty one of the main day, and the count 0.
#[derive(Clone, Copy, Debug)]
pub struct DayToUse<'a> {
    pub outcome: Result<(), Refusal>,
    pub readings: &'a [u32],
    pub apart: u32,
}

// What one pass over two days finds: whether a reading is missing in the main day, and in the check day, and in how many blocks the two are
// apart.
#[derive(Clone, Copy)]
struct Found {
    main: bool,
    check: bool,
    apart: u32,
}

#[tactic(auto, unfolding(crate::specs::CheckMeter::further_apart))]
fn further_apart(x: u32, y: u32, tolerance: u32) -> bool
    ensures { result ≡ further_apart tolerance x y }
{
    (x != MISSING) & (y != MISSING) & (tolerance < x.abs_diff(y))
}

// One pass without a way out of it: several blocks are then tested at once.
fn scan(main: &[u32], check: &[u32], tolerance: u32) -> Found
    requires main_whole { length main.now ≡ day_blocks }
    requires check_whole { length check.now ≡ day_blocks }
    ensures { result ≡ found_in tolerance main.now check.now }
{
    let mut found = Found {
        main: false,
        check: false,
        apart: 0,
    };
    for (&x, &y) in main.iter().zip(check) {
        found.main |= x == MISSING;
        found.check |= y == MISSING;
        found.apart += u32::from(further_apart(x, y, tolerance));
    }
    found
}

// For the call below, and for the C call, which names a meter where that hands back a part.
#[tactic(auto, unfolding(crate::specs::CheckMeter::day_number, lists::specs::Refusals::first_of))]
pub fn compare(main: &[u32], check: &[u32], tolerance: u32) -> Result<Comparison, Refusal>
    ensures number { shown result ≡ day_number main.now check.now }
    ensures accepted { IfOk result (λ both. both ≡ comparison tolerance main.now check.now) }
{
    if main.len() != DAY_BLOCKS || check.len() != DAY_BLOCKS {
        return Err(Refusal::WrongSize);
    }
    let found = scan(main, check, tolerance);
    let meter = match (found.main, found.check) {
        (false, _) => Meter::Main,
        (true, false) => Meter::Check,
        (true, true) => return Err(Refusal::BothIncomplete),
    };
    Ok(Comparison {
        meter,
        apart: found.apart,
    })
}

// Hands back the day to be used, a part of what the caller lent: the main meter's where none of its readings is missing, otherwise the check
// meter's; of refused days an empty part of the main day. Apart are the blocks in which both readings are present and further apart than the
// tolerance; of refused days none.
#[tactic(auto, unfolding(crate::specs::CheckMeter::day_to_use))]
pub fn day<'a>(main: &'a [u32], check: &'a [u32], tolerance: u32) -> DayToUse<'a>
    ensures { DayHandedBack (stretch_of main.entry) (stretch_of check.entry) tolerance (stretch_of result.readings) (shown result.outcome) result.apart }
{
    let (outcome, readings, apart) = match compare(main, check, tolerance) {
        Ok(both) => {
            let readings = match both.meter {
                Meter::Main => main,
                Meter::Check => check,
            };
            (Ok(()), readings, both.apart)
        }
        Err(refusal) => (Err(refusal), &main[..0], 0),
    };
    DayToUse {
        outcome,
        readings,
        apart,
    }
}
