// The definitions stand in specs/ and the theorems about them in proofs/: this crate has no function.
#![tactic(auto)]
