// Steps 2 and 3 of a closing by hours in the words of document 02, F-7, turn after turn: each consumer in turn settles off-peak, normal, peak.
// No call uses it. closing_by_hours finds a consumer's suppliers once and settles its three classes together, so that there no operand says
// whose turn it is. Here one does, and an edit of it shows that another order of the turns is refused.
#![tactic(auto)]

ghost use Rattle.record_layout.specs.OnBytes.{book_in};
ghost use Rattle.closing_by_hours.specs.Laws.HoursDrawing.{Drawable};
ghost use Rattle.class_turns.specs.Laws.TurnsSettled.{TurnsSettled};

use class_bank::ClassBank;

// All 16 places of consumers have their turns. Those beyond the agreement want nothing, and nobody serves them. The result is what each turn
// lacks: consumer c's turn for class k is number c * 3 + k. What it asks is what closing_by_hours has shown when it comes to its own drawing.
pub fn settle_turns(s: &[u8], bank: &mut ClassBank, n: usize) -> [u64; 48]
    requires { Drawable s.now bank.old.balance n (book_in s.now).plan.C }
    ensures { TurnsSettled (book_in s.now) 48 bank.new.balance result }
{
    let mut lacking = [0u64; 48];
    for t in 0..48 {
        let c = t / 3;
        let k = t % 3;
        let suppliers = record_order::suppliers_at(s, n, c);
        let class = record_places::OFF_PEAK + k * record_places::CLASS_NUMBERS;
        let want = record_numbers::number_at(s, class + c + record_places::CLASS_OUTSTANDING);
        lacking[c * 3 + k] = class_bank::serve(suppliers.keys(), k, &mut bank.balance, want);
    }
    lacking
}
