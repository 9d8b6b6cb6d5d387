// Laws only, on tables of rows of one width that stand one behind the other in one list: proofs/ has their cells, and what a loop that writes them keeps.
#![tactic(auto)]
