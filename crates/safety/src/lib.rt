// Demand 3 as a theorem over the definitions of check, load and run: specs/Demand3.antt. There is no code here.
#![tactic(auto)]
