// Examples with their numbers (docs/RULES.md, R16), as one table under one statement. There is no code here: the statement is specs/Marked.antt, and
// proofs/Marked.antt computes it.

#![tactic(auto)]
