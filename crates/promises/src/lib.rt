// The demands, stated in the words of the theory and proved; there is no code here.
#![tactic(auto)]
