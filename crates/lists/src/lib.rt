// Lists that every definition may use, and their laws: specs/ has the definitions, proofs/ the laws. No code.
#![tactic(auto)]
