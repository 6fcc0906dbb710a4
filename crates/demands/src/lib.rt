// The demands on the bench, and that ours meets them: definitions in specs/, theorems in proofs/, and no function.
#![tactic(auto)]
