// Stack maps (01: stack pictures): definitions and theorems only.
#![tactic(auto)]
