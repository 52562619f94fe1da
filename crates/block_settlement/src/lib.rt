// Rules 5 to 7 of a block, consumer by consumer: each list of the output is settled or written in its own stretch.
#![tactic(auto)]

ghost use Rattle.std.specs.Prelude.{◌≡◌, ℕ, ◌+◌, ◌*◌, ◌<◌, length};
ghost use Rattle.block_rules.specs.Laws.DeliveredIn.{DeliveredIn};
ghost use Rattle.block_rules.specs.Settlement.{remainder, block_output};
ghost use Rattle.record_layout.specs.OnBytes.{plan_in};
ghost use Rattle.block_settlement.specs.Laws.SettlementLent.{exits_in, Ranked};
ghost use Rattle.block_settlement.specs.Laws.SettledTo.{Whole, SettledTo, Remainders};

// Rules 5 to 7 for consumer c, whose exit reading is `read`. What is delivered is settled where it stands, in underdrawn's list, so that what is
// underdrawn stays there. Both settlements come before both puts: so no settlement waits for what was just written. The result is the remainder.
fn settle_one(
    s: &[u8],
    n: usize,
    m: usize,
    c: usize,
    read: u64,
    set_off: &mut [u64],
    underdrawn: &mut [u64],
    shortfall: &mut [u64],
) -> u64
    requires { Ranked s.now n m × ((c < m) × Whole (n * m) set_off.old underdrawn.old shortfall.old) }
    ensures { (E R : ℕ → ℕ) → read ≡ R c → SettledTo (plan_in s.now) E R c set_off.old underdrawn.old shortfall.old → SettledTo (plan_in s.now) E R (c + 1) set_off.new underdrawn.new shortfall.new × (result ≡ remainder (plan_in s.now) E c (R c)) }
{
    let turns = record_order::turns_at(s, n, c);
    let mut taken = [0u64; 8];
    let left = turns.settle(underdrawn, m, c, &mut taken, read);
    let mut short = [0u64; 8];
    let remainder = turns.settle(shortfall, m, c, &mut short, left);
    output_lists::put_column(set_off, n, m, c, &taken);
    output_lists::put_column(shortfall, n, m, c, &short);
    remainder
}

// Rules 5 to 7 for all consumers, one after the other.
fn settle_each(
    s: &[u8],
    n: usize,
    m: usize,
    exit: &[u32],
    set_off: &mut [u64],
    underdrawn: &mut [u64],
    shortfall: &mut [u64],
    rests: &mut [u64],
)
    requires { Ranked s.now n m × ((length exit.now ≡ m) × (Whole (n * m) set_off.old underdrawn.old shortfall.old × (length rests.old ≡ m))) }
    ensures { (E : ℕ → ℕ) → SettledTo (plan_in s.now) E (exits_in s.now exit.now) 0 set_off.old underdrawn.old shortfall.old → SettledTo (plan_in s.now) E (exits_in s.now exit.now) m set_off.new underdrawn.new shortfall.new × Remainders (plan_in s.now) E (exits_in s.now exit.now) m rests.new }
{
    for c in 0..m {
        rests[c] = settle_one(
            s,
            n,
            m,
            c,
            u64::from(exit[c]),
            set_off,
            underdrawn,
            shortfall,
        );
    }
}

// Rules 5 to 7 of a block, in the slice in which rules 1 to 4, for whatever entry readings E, have left their figures.
pub fn settle_all(s: &[u8], n: usize, m: usize, exit: &[u32], out: &mut [u64])
    requires { Ranked s.now n m × ((length exit.now ≡ m) × (length out.old ≡ 4 * (n * m) + n + m)) }
    ensures { (E : ℕ → ℕ) → DeliveredIn (plan_in s.now) E out.old → out.new ≡ block_output (plan_in s.now) E (exits_in s.now exit.now) }
{
    let size = n * m;
    let (_, lists) = out.split_at_mut(size);
    let (set_off, lists) = lists.split_at_mut(size);
    let (underdrawn, lists) = lists.split_at_mut(size);
    let (shortfall, lists) = lists.split_at_mut(size);
    let (_, rests) = lists.split_at_mut(n);
    settle_each(s, n, m, exit, set_off, underdrawn, shortfall, rests);
}
