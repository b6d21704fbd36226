// The demands that speak of whole lists of calls, as theorems about the contracts of the calls. No code: specs/ has the statements and their
// proofs. Relies on image (the contracts) and on laws (lookup is the table).

#![tactic(auto)]
