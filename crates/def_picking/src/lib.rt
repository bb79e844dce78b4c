// Which search literals win. It holds no function: its definitions stand in specs/ and its laws in proofs/.

#![tactic(auto)]
