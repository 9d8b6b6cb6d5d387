// u * v / d on 64-bit numbers, exact though the product takes two words: `division::mul_div`.
#![tactic(auto)]

pub mod division;
pub mod words;
