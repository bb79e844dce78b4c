// Which texts are patterns. It holds no function: the grammar stands in specs/, and proofs/ shows that reading follows it.

#![tactic(auto)]
