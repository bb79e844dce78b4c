// The meaning of patterns and programs. It holds no function: its definitions stand in specs/ and its laws in proofs/,
// and every crate above cites them.

#![tactic(auto)]
