// The book, demand 3 and the bench cases: definitions and theorems, in specs/. There is no code here.
#![tactic(auto)]
