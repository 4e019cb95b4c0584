// The bench cases of SPECIFICATION 17, computed from the definitions of `model`. This crate has no function.

#![tactic(auto)]
