// Opening and schedule: their rules, and the laws by which the calls are proved, in specs/. There is no code here.
#![tactic(auto)]
