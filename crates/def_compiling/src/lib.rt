// What compiling is: from tokens to the words of two programs. It holds no function: its definitions stand in specs/ and its
// laws in proofs/, and the compiler above cites them.

#![tactic(auto)]
