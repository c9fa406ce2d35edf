// The cases of document 01, "Proving ground": theorems of the definitions (specs/, proofs/). There is no code here.
#![tactic(auto)]
