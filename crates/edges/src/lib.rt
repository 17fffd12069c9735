// No function: the starred values of document 01, over the definitions that the code of the other crates is proved equal to.
#![tactic(auto)]
