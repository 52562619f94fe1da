// What a block is, rules 1 to 8: definitions and theorems, in specs/. There is no code here.
#![tactic(auto)]
