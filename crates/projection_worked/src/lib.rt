// The projection's worked values as definitions, and how near they are to the rules'. It has no code; its content is in specs/ and proofs/.

#![tactic(auto)]
