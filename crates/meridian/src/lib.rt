// The definition's scale on the central meridian: before m0 it is 1, but for less than 10^-11. It has no code; its content is in specs/ and proofs/.

#![tactic(auto)]
