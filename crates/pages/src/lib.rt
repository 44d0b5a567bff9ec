// Settings pages with editions (docs/RULES.md, R19), around the rules and without a change to them. There is no code here: a device is a state of the rules,
// the edition last taken and perhaps a page that waits (specs/Device.antt); specs/Offers.antt counts from the calls and their answers alone; specs/Claims.antt
// says what holds of every list of calls, and proofs/ shows it.

#![tactic(auto)]
