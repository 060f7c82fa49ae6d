// The promises in one place, over the definitions that the exported functions' contracts cite: recovery (demand 3), dated quotes and
// lots, the marked cases, the round trip, recordings, and that refusals stay. Definitions and theorems alone.
#![tactic(auto)]
