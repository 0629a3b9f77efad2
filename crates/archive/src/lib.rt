// An export, imported: what is proved of the two calls together. There is no code.
#![tactic(auto)]
