// The main claims about the library as a whole, in one place: specs/Claims.antt states it, proofs/Claimed.antt proves it. No code.
#![tactic(auto)]
