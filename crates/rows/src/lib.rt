// What one step of the search does with its rows of 64 costs, and that it is the machine's: definitions and laws only.
#![tactic(auto)]
