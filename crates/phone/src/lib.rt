// The phone end: what lies in a picture of a box's memory.
#![tactic(auto)]

pub mod app;
mod area;
mod cursor;
mod faults;
pub mod layout;
pub mod listing;
