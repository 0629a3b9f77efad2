// Document 01's marked examples of the definitions, as one table with one proof. There is no code.
#![tactic(auto)]
