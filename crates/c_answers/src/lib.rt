// Each answer of the library as the struct that C is given, and the fields of a formula as C gives them.
#![tactic(auto)]

pub mod answers;
mod conversions;
mod fields;
