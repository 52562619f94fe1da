// The four calls on bytes: what they give, and the laws by which the code is proved, in specs/. There is no code here.
#![tactic(auto)]
