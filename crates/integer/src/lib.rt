// Laws only, on whole numbers: specs/ has linear facts for `omega`, signs, the clamp to a width, sums and saturating sums.
#![tactic(auto)]
