// Runs of the calls that the Rust package, the C header and the trace program make are runs of the managers' total calls: theorems over promises; it has no code of its own.
#![tactic(auto)]
