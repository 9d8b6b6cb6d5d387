// Laws only: how near the figures worked out in floats are to the exact formulas of EIA-748 and PMI. specs/Exact.antt says what near means, proofs/ has the laws.
#![tactic(auto)]
