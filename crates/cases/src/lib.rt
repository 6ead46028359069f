// The eleven cases of 01 are one table (specs/Table.antt) under one claim (specs/Claim.antt, proved in proofs/Cases11.antt); there is no code.
#![tactic(auto)]
