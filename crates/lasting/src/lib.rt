// Demand 3 for the calls as the code makes them: definitions in specs/, the theorem in proofs/. No code of its own.
#![tactic(auto)]
