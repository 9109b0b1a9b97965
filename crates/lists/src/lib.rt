// Lists made of the first values of a function, and tests at every number below a given one: definitions and laws only.
#![tactic(auto)]
