//! What cells do for many threads at a time.

mod errors;
mod rounds;
mod together;
mod told;
mod visits;
