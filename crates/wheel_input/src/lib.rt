// The input of program `wheel`: the table of agreement A, in at most 64 KiB.
#![tactic(auto)]

ghost use Rattle.std.specs.Prelude.{◌≡◌, length};
ghost use Rattle.wheel_rules.specs.Display.{space};
ghost use Rattle.wheel_input.specs.Laws.Input.{InputRead};

use refusal::Refusal;

// Reads the table of agreement A. A text past 64 KiB has a malformed later line; a names line that differs comes first.
pub fn read(text: &[u8], values: &mut [u32]) -> Result<usize, Refusal>
    requires { length values.old ≡ space }
    ensures { InputRead text.now result values.new }
{
    let read = table::read_table(1, 2, text, values);
    if text.len() <= 65_536 || read == Err(Refusal::WrongNames) {
        return read;
    }
    Err(Refusal::WrongLine)
}
