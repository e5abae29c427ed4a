// What is right: document 01 as definitions, the demands on them, and the proofs of these. It has no code, and all code stands above it.
#![tactic(auto)]
