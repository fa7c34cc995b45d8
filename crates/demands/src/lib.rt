// No code: the demands, the packet maker, packets without a checksum and parity as theorems about the calls (proofs/Demand2.antt,
// proofs/Demand3.antt, proofs/MadePackets.antt, proofs/NoChecksum.antt, proofs/Parity.antt) and the rows worked by hand
// (proofs/WorkedRows.antt), with the definitions that only they need in specs/.
#![tactic(auto)]
