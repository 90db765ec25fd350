#![tactic(auto)]

// The calculus: definitions in specs/, theorems in proofs/. No code.
