// Document 01, "Readings table": what program `wheel` prints, and its printed example, in specs/. There is no code here.
#![tactic(auto)]
