// What a closing is: steps 1 to 4 on a book, in specs/. There is no code here.
#![tactic(auto)]
