// Program `wheel`: prints what `report` gives for standard input. One byte past 64 KiB is enough to tell that the input is too long.
#![tactic(auto)]

ghost use Rattle.std.specs.Prelude.{◌≤◌, length};
ghost use Rattle.wheel_rules.specs.Display.{account_text, display};
ghost use Rattle.wheel_print.specs.Printing.{Shows};

use std::io;
use std::io::Write;
use wheel_print::Printed;

// What is printed for the values of a table that was read.
fn account(values: &[u32]) -> Printed
    ensures { Shows result (account_text values.now) }
{
    match wheel_month::month(values) {
        Ok(after) => wheel_print::equation(after.generators),
        Err(refusal) => wheel_print::refused(refusal.number()),
    }
}

// What is printed for a text: the table is read, each line is entered as a block under agreement A, the month is closed.
fn report(text: &[u8]) -> Printed
    ensures { Shows result (display text.now) }
{
    let mut values = [0u32; 10_080];
    match wheel_input::read(text, &mut values) {
        Ok(lines) => account(&values[..lines * 3]),
        Err(refusal) => wheel_print::refused(refusal.number()),
    }
}

// Reads until text is full, the input ends or a read fails, and returns how many bytes it put at the start of text.
// std's `read_to_end` needs the heap, and its `read_exact` does not say how much came before the end.
fn read_full<R: io::Read>(reader: &mut R, text: &mut [u8]) -> usize
    ensures { result ≤ length text.new }
{
    let mut filled: usize = 0;
    while let Ok(count @ 1..) = reader.read(&mut text[filled..]) {
        filled += count;
    }
    filled
}

fn main(rt: HostRuntime) -> io::Result<()> {
    let mut text = [0u8; 65_537];
    let n = read_full(&mut rt.stdin(), &mut text);
    rt.stdout().write_all(report(&text[..n]).as_slice())
}
