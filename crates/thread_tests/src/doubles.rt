//! Values and inits that are counted, what a thread does with a cell, and where threads meet.

pub mod asked;
pub mod counted;
pub mod work;
