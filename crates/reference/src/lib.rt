// The reference points of document 01, cases a to n: one table in specs/ and one theorem in proofs/, and no code.
#![tactic(auto)]
