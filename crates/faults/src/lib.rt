// The six faults of SPECIFICATION 18.1, each broken by a computed counterexample; what may happen after a format that was not
// flushed (4.5), and where a module is opened as the wrong kind (8.9). This crate has no function.

#![tactic(auto)]
