// The course of a reading is defined in specs/ and reasoned about in proofs/, over the definitions of crate reading; the code that reads is in the crate line.
#![tactic(auto)]
