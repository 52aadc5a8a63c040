// The customer's three demands as one theorem over the promises of the crates below: `Demands` of specs/, `demands_met` of proofs/. There is nothing to run.
#![tactic(auto)]
