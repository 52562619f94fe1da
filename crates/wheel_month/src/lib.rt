// The calls of program `wheel`: agreement A, each line of a table as a block under it, and the closing. They work on the record's bytes: by
// value the record would be copied with every line.
// A function with a `requires` is called in this crate only, where it is met.
#![tactic(auto)]

ghost use Rattle.std.specs.Prelude.{◌≡◌, [], ◌∷◌, ◌++◌, length, IfOk};
ghost use Rattle.refusal.specs.Numbers.{shown};
ghost use Rattle.record_layout.specs.OnBytes.{book_in, record_in};
ghost use Rattle.agreement_rules.specs.Opening.{opened};
ghost use Rattle.book.specs.BookCalls.{Call, book_after};
ghost use Rattle.book.specs.AgreementA.{agreement_a, schedule_a};
ghost use Rattle.wheel_rules.specs.Display.{blocks, call_number, last_book};
ghost use Rattle.wheel_month.specs.Laws.Carried.{Holds, Carried, Ready, answered};
ghost use Rattle.record_places.specs.RecordSize.{record_bytes};

use opening_refusal::Asked;
use record::Record;
use refusal::Refusal;

// Agreement A, opened and scheduled: no number applies to either call, so neither can be refused.
fn agreement_a(s: &mut [u8])
    requires { length s.old ≡ record_bytes }
    ensures { Holds (record_in s.new) (book_after (opened agreement_a) (schedule_a ∷ [])) }
{
    let generators = [1, 1_000, 800];
    let pairs = [1, 1, 1_000, 500];
    let asked = Asked {
        generators: 1,
        consumers: 2,
        rate: 1_000,
        cycle: 2,
        gone: 0,
        switch: 0,
        generator_list: &generators,
        pair_list: &pairs,
    };
    let _ = opening::opening_on(asked, s);
    let kws = [100, 200];
    let ranks = [1, 1];
    let _ = schedule::schedule_on(s, &kws, &ranks);
}

// One line as a block: the entry reading e, the exit readings r1 and r2.
fn enter_line(s: &mut [u8], e: u32, r1: u32, r2: u32) -> Result<(), Refusal>
    requires { Ready s.old }
    ensures { Carried (book_in s.old) (Call.block (e ∷ []) (r1 ∷ r2 ∷ []) 11 ∷ []) (answered (shown result) s.new) }
{
    let entry = [e];
    let exit = [r1, r2];
    let mut lists = [0u64; 11];
    block::block_on(s, &entry, &exit, &mut lists)
}

// The lines in their order, up to the first that is refused.
fn enter_lines(s: &mut [u8], values: &[u32]) -> Result<(), Refusal>
    requires { Ready s.old }
    ensures { Carried (book_in s.old) (blocks values.now) (answered (shown result) s.new) }
{
    let mut i: usize = 0;
    while 2 < values.len() - i {
        enter_line(s, values[i], values[i + 1], values[i + 2])?;
        i += 3;
    }
    Ok(())
}

fn close_month(s: &mut [u8]) -> Result<(), Refusal>
    requires { Ready s.old }
    ensures { Carried (book_in s.old) (Call.closing 9 ∷ []) (answered (shown result) s.new) }
{
    let mut lists = [0u64; 9];
    closing::close_on(s, &mut lists)
}

// The lines, and the closing where none of them is refused.
fn enter_and_close(s: &mut [u8], values: &[u32]) -> Result<(), Refusal>
    requires { Ready s.old }
    ensures { Carried (book_in s.old) (blocks values.now ++ (Call.closing 9 ∷ [])) (answered (shown result) s.new) }
{
    enter_lines(s, values)?;
    close_month(s)
}

// The calls for the values of a table, up to the first that is refused: the record after them, or that refusal.
pub fn month(values: &[u32]) -> Result<Record, Refusal>
    ensures number { shown result ≡ call_number values.now }
    ensures holds { IfOk result (λ after. Holds after (last_book values.now)) }
{
    let mut s = [0u8; record_places::RECORD_BYTES];
    agreement_a(&mut s);
    enter_and_close(&mut s, values)?;
    Ok(record_bytes::loading::load(&s))
}
