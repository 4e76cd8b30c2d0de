// That the definitions give the values of document 01, "Sample values", that are marked *: no function.
#![tactic(auto)]
