// What the copy of a code has in common with the record's: laws only.
#![tactic(auto)]
