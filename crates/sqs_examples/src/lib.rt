//! Worked examples: scenarios with their right output, computed by the checker from the
//! definitions. They are in `proofs/`; there is no code here.
#![tactic(auto)]
