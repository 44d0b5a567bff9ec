// The rules of the desk's board (docs/RULES.md, R11), and all that is true of every list of calls.
//
// There is no code here. The rules are definitions in specs/, over plain numbers and lists; they know nothing of bytes. The theorems are in proofs/: which
// boards calls can make (proofs/Made.antt), that records of different trains commute (proofs/Commute.antt), what a board shows (proofs/Shows.antt), and that
// nothing follows the greatest sequence (proofs/Last.antt).

#![tactic(auto)]
