// What waits in one lane, as the rest of the rules may know it: the operations of specs/Waiting.antt and the laws of proofs/Laws.antt and Sharing.antt, and
// nothing else. A lane's clocks, the choice between lanes and the fair share rest on these laws only, so how a lane keeps its records is known here alone. No
// code is here.

#![tactic(auto)]
