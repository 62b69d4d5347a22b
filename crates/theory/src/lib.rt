// The published theory (source document 001), as definitions and laws; there is no code here.
#![tactic(auto)]
