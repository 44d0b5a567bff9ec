// States that no call tells apart. A table keeps ties only where a call looks at them, so it encodes a state up to this. There is no code here: the
// definition, and what it means, are in specs/Alike.antt.

#![tactic(auto)]
