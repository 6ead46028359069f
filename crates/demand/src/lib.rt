// Demand 3 is a theorem over the free-volume manager's promises (proofs/Demand.antt); it has no code of its own.
#![tactic(auto)]
