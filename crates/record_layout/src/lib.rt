// Where the record's parts stand among its numbers and what that makes of a call on its bytes: definitions and theorems, in specs/. There is no
// code here.
#![tactic(auto)]
