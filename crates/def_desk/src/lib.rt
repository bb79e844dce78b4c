// The desk's samples, as one claim over the definitions. It holds no function.

#![tactic(auto)]
