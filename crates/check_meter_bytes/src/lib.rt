// The day of two meters on bytes: what its C call gives, and the laws by which the code is proved, in specs/. There is no code here.
#![tactic(auto)]
