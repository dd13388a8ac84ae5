#![tactic(auto)]

// What the product promises of its calls together: definitions in specs/, their proofs in proofs/. No code.
