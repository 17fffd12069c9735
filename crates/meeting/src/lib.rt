// No function: theorems about the detectors of `detector`, `lent` and `brinepulley`, by their contracts.
#![tactic(auto)]
