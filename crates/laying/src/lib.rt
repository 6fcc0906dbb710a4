// The parts of a table as a sheet's lines lay them down: definitions in specs/, theorems in proofs/, and no function.
#![tactic(auto)]
