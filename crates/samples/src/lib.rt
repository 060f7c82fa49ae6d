// Messages as bytes, and what the reader's definition reads in them: the marked cases of document 01 that are about
// messages. Definitions and theorems alone.
#![tactic(auto)]
