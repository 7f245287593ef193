// The reading of the line is defined in specs/ and reasoned about in proofs/; the code that reads is in the crate line.
#![tactic(auto)]
