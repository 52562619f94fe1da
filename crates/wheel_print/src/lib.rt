// What program `wheel` prints: a word, and a line of values after it.
#![tactic(auto)]

ghost use Rattle.std.specs.Prelude.{◌≡◌, ◌++◌, ◌+◌, ◌*◌, ◌≤◌, length, take};
ghost use Rattle.table_text.specs.TableText.{printed};
ghost use Rattle.record.specs.Stored.{generator_at};
ghost use Rattle.wheel_rules.specs.Display.{refused_text, equation_text};
ghost use Rattle.wheel_print.specs.Printing.{Shows};

use record::Generators;
use table_text::Text;

// What is to be printed: the first size bytes.
#[derive(Clone, Copy)]
pub struct Printed {
    pub bytes: [u8; 320],
    pub size: usize,
}

impl Printed {
    // The print of a text: a `Text` cannot be copied, so its bytes go into an array.
    pub fn new(text: &Text) -> Printed
        ensures { Shows result text.now.items }
    {
        let mut bytes = [0; 320];
        let size = text.len();
        bytes[..size].copy_from_slice(text.as_slice());
        Printed { bytes, size }
    }

    // The bytes to print; all 320 where size is more.
    pub fn as_slice(&self) -> &[u8]
        ensures { result.now ≡ take self.now.size self.now.bytes }
    {
        &self.bytes[..self.size.min(self.bytes.len())]
    }
}

// A word, and a line of values after it.
fn word_and_line(word: &[u8], values: &[u64]) -> Printed
    requires { length word.now + 21 * length values.now ≤ 320 }
    ensures { Shows result (word.now ++ printed (length values.now) 0 values.now) }
{
    let mut text = Text::try_from(word).unwrap();
    table_text::push_line(values, &mut text);
    Printed::new(&text)
}

pub fn refused(number: u32) -> Printed
    ensures { Shows result (refused_text number) }
{
    word_and_line(b"refused ", &[u64::from(number)])
}

// Generator 1 and its nine-term equation.
pub fn equation(x: Generators) -> Printed
    ensures { Shows result (equation_text (generator_at x 0)) }
{
    let values = [
        1,
        x.injected[0],
        x.unaccounted[0],
        x.lost[0],
        x.setoff[0],
        x.inadvertent[0],
        x.charge[0],
        x.drawn[0],
        x.lapsed[0],
        x.bank[0],
        x.pending[0],
    ];
    word_and_line(
        b"generator,injected,unaccounted,loss,setoff,inadvertent,charge,drawn,lapsed,bank,pending\n",
        &values,
    )
}
