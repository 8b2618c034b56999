// What load, step and run guarantee, as theorems over their definitions: specs/Guarantees.antt. There is no code here.
#![tactic(auto)]
