// Demand 3 over the C calls on bytes: definitions and theorems, in specs/. There is no code here.
#![tactic(auto)]
