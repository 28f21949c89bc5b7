// The calls of a line: opening it, and what stations and the bus then do.
// Each call takes the system and the memory as two parameters: a struct of both would say of them what each call has to judge
// for itself.
#![tactic(auto)]

mod applying;
pub mod begin;
mod bus;
mod cabinet;
pub mod choice;
mod choosing;
pub mod deliver;
pub mod effect;
mod hands;
pub mod jobs;
mod journal;
pub mod opening;
mod places;
mod progress;
mod station;
mod tellings;
pub mod ticket;
pub mod wire;
