// What the doors promise of a pattern, from its text to the haystack. It holds no function.

#![tactic(auto)]
