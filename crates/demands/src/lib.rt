// The three demands and the examples are stated in specs/ and proved in proofs/, over the definitions that the other crates' contracts cite.
#![tactic(auto)]
