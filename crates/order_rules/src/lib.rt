// The inter-se order of generators and settling in it, in specs/. There is no code here.
#![tactic(auto)]
