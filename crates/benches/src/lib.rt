// Two bench sheets and what they print (SPECIFICATION 16.4, 17.6), computed from the definitions. This crate has no function.

#![tactic(auto)]
