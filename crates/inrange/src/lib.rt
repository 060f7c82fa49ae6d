// What the reader reads lies in document 01's ranges ("Fields"), so a board may take it. Definitions and theorems alone.
#![tactic(auto)]
