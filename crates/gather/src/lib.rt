// What a sheet's lines gather to, and the judge's ruling: definitions in specs/, theorems in proofs/, and no function.
#![tactic(auto)]
