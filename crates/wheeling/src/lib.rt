// The calls of a C host. Every list is bytes, low byte first: 4 a number in the inputs, 8 in the outputs and in the record.
#![tactic(auto)]

ghost use Rattle.std.specs.Prelude.{◌≡◌, length};
ghost use Rattle.block_rules.specs.Block.{block_rule};
ghost use Rattle.wheeling_rules.specs.Wheeling.{numbers_in, ByRule, opening_in, ByteOpened, ByteScheduled, ByteBlocked, ByteClosed};
ghost use Rattle.check_meter_bytes.specs.DayOnBytes.{ByteDay};
ghost use Rattle.record_places.specs.RecordSize.{record_bytes};

use check_meter::Meter;
use opening_refusal::Asked;
use refusal::Refusal;

const RECORD_BYTES: usize = record_places::RECORD_BYTES;

// A day's list, and its output of two numbers: the meter to use, and the count.
const DAY_LIST_BYTES: usize = 4 * check_meter::DAY_BLOCKS;

const DAY_OUTPUT_BYTES: usize = 16;

// The arrays of a call on a record have a place more than the largest agreement takes: see `wheeling_lists::read_input` and
// `wheeling_lists::room`. A day has one size only, so its lengths are tested first.

// A block whose inputs are read: its output is made as numbers, and written where it is accepted.
fn block_on_inputs(bytes: &mut [u8], entry: &[u32], exit: &[u32], output: &mut [u8]) -> u32
    requires { length bytes.old ≡ record_bytes }
    ensures { ByRule (block_rule entry.now exit.now (length (numbers_in 8 output.old))) bytes.old output.old result bytes.new output.new }
{
    let mut out = [0u64; 537];
    let n = wheeling_lists::room(output, 537);
    let outcome = block::block_on(bytes, entry, exit, &mut out[..n]);
    wheeling_lists::give(refusal::shown(outcome), &out, n, output)
}

#[unsafe(no_mangle)]
pub extern "C" fn wheeling_open(
    generators: u32,
    consumers: u32,
    rate: u32,
    cycle: u32,
    gone: u32,
    switch_month: u32,
    generator_list: &[u8],
    pair_list: &[u8],
    record: &mut [u8],
) -> u32
    ensures { ByteOpened (opening_in generators consumers rate cycle gone switch_month generator_list.now pair_list.now) «record».old result «record».new }
{
    if record.len() == RECORD_BYTES {
        let mut agreed = [0u32; 25];
        let n = wheeling_lists::read_input(generator_list, &mut agreed);
        let mut pairs = [0u32; 257];
        let m = wheeling_lists::read_input(pair_list, &mut pairs);
        let asked = Asked {
            generators: generators as usize,
            consumers: consumers as usize,
            rate,
            cycle,
            gone,
            switch: switch_month,
            generator_list: &agreed[..n],
            pair_list: &pairs[..m],
        };
        return refusal::shown(opening::opening_on(asked, record));
    }
    Refusal::WrongSize.number()
}

#[unsafe(no_mangle)]
pub extern "C" fn wheeling_schedule(record: &mut [u8], kw_list: &[u8], rank_list: &[u8]) -> u32
    ensures { ByteScheduled «record».old kw_list.now rank_list.now result «record».new }
{
    if record.len() == RECORD_BYTES {
        let mut kw = [0u32; 129];
        let n = wheeling_lists::read_input(kw_list, &mut kw);
        let mut ranks = [0u32; 129];
        let m = wheeling_lists::read_input(rank_list, &mut ranks);
        return refusal::shown(schedule::schedule_on(record, &kw[..n], &ranks[..m]));
    }
    Refusal::NotSound.number()
}

#[unsafe(no_mangle)]
pub extern "C" fn wheeling_block(
    record: &mut [u8],
    entry_list: &[u8],
    exit_list: &[u8],
    output: &mut [u8],
) -> u32
    ensures { ByteBlocked «record».old entry_list.now exit_list.now output.old result «record».new output.new }
{
    if record.len() == RECORD_BYTES {
        let mut entry = [0u32; 9];
        let n = wheeling_lists::read_input(entry_list, &mut entry);
        let mut exit = [0u32; 17];
        let m = wheeling_lists::read_input(exit_list, &mut exit);
        return block_on_inputs(record, &entry[..n], &exit[..m], output);
    }
    Refusal::NotSound.number()
}

#[unsafe(no_mangle)]
pub extern "C" fn wheeling_close(record: &mut [u8], output: &mut [u8]) -> u32
    ensures { ByteClosed «record».old output.old result «record».new output.new }
{
    if record.len() == RECORD_BYTES {
        let mut out = [0u64; 185];
        let n = wheeling_lists::room(output, 185);
        let outcome = closing::close_on(record, &mut out[..n]);
        return wheeling_lists::give(refusal::shown(outcome), &out, n, output);
    }
    Refusal::NotSound.number()
}

#[unsafe(no_mangle)]
pub extern "C" fn wheeling_day(
    main_list: &[u8],
    check_list: &[u8],
    tolerance: u32,
    output: &mut [u8],
) -> u32
    ensures { ByteDay (numbers_in 4 main_list.now) (numbers_in 4 check_list.now) tolerance output.old result output.new }
{
    let fits = main_list.len() == DAY_LIST_BYTES
        && check_list.len() == DAY_LIST_BYTES
        && output.len() == DAY_OUTPUT_BYTES;
    if !fits {
        return Refusal::WrongSize.number();
    }
    let mut main = [0u32; 96];
    codec::read(main_list, &mut main);
    let mut check = [0u32; 96];
    codec::read(check_list, &mut check);
    match check_meter::compare(&main, &check, tolerance) {
        Ok(both) => {
            let meter = match both.meter {
                Meter::Main => 0,
                Meter::Check => 1,
            };
            codec::write8(&[meter, u64::from(both.apart)], output);
            0
        }
        Err(refusal) => refusal.number(),
    }
}
