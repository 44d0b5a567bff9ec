// What it means that lists of lanes by group and slot, and the groups' starts, agree with a state of the rules, and that put and take keep it so:
// specs/Filing.antt and proofs/. It has no function.

#![tactic(auto)]
