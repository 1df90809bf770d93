#![tactic(auto)]

// The settled examples of the scope, as one table over the written meanings: specs/Table.antt.
