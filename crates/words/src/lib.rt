// Words, tags, values and refusals of the line register.
#![tactic(auto)]

pub mod bytes;
pub mod mask;
pub mod refusal;
pub mod speed;
pub mod tag;
pub mod value;
pub mod word;
