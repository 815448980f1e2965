// Demand 3, "one map, one packing": what it claims stands in specs/Claims.antt, its proof in proofs/. No function.
#![tactic(auto)]
