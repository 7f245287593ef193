// What is proved of the trace library as a whole stands in specs/ and proofs/; the library is the crate trace.
#![tactic(auto)]
