//! The code that a program is translated to, as definitions, and the laws that this code is valid, does what the program
//! does and has its histories. No code.
#![tactic(auto)]

mod history_law;
mod laws;

pub use history_law::compiled_code_has_the_same_histories;
pub use laws::{compiled_code_implements, compiled_code_is_valid};
