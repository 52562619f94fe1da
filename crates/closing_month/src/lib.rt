// What a closing takes up is what the blocks of its month published: definitions and the theorem, in specs/. There is no code here.
#![tactic(auto)]
