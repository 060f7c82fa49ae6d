// The board: sixteen instruments' books, marks and the queue, and what each call does to it (document 01, "Numbers, queue
// and marks"). Definitions and theorems alone; crate channel is the code.
#![tactic(auto)]
