// What each call does, as definitions, and what is true of lists of calls. There is no code here: the crates above are held to these
// definitions, and the theorems need nothing of their code.
#![tactic(auto)]
