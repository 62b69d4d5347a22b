// Document 01's starred cases, computed of the definitions; there is no code here.
#![tactic(auto)]
