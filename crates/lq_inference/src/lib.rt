// Inference: specs/ has inference that a caller gives the types of variables, proofs/ its laws.
#![tactic(auto)]
