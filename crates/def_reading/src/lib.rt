// What reading a text means. It holds no function: its definitions stand in specs/ and its laws in proofs/,
// and the readers above promise exactly these.

#![tactic(auto)]
