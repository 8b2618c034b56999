// The invariant of a run of accepted code: definitions and laws alone.
#![tactic(auto)]
