// One lane that several trains share, by deficit round robin.
//
// There is no code here. The rules are definitions in specs/, over plain numbers and lists; they know nothing of clocks, lanes, tables or sets. The
// theorems are in proofs/: a good lane stays good (proofs/Keep.antt), each train's records are handed out once and in order (proofs/Order.antt), and
// two trains that both hold records are sent the same bytes, up to three times the longest record (proofs/Others.antt).

#![tactic(auto)]
