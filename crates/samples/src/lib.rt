// No code: specs/ has images made outside Rattle, by the second program (tests/second), and judges them by the paper's definitions. Relies on image.

#![tactic(auto)]
