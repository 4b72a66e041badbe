// What a cell is and what the best list is, with the theory that leads from one to the other.
#![tactic(auto)]
