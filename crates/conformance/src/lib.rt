// The worked cases of 01's table, and its page, as statements over the definitions: specs/Cases.antt and specs/Page.antt. There
// is no code here.
#![tactic(auto)]
