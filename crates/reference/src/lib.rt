// Document 01's thirteen reference cases, a table under one theorem: specs/Cases.antt.
#![tactic(auto)]
