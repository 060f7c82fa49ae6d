// A book written as a snapshot reads back as the same book: the writer's definition against the reader's (document 01,
// "Quote and writing", "Frame" and "Fields"). Definitions and theorems alone.
#![tactic(auto)]
