//! What a `Lazy` does on one thread.

mod owner;
mod polls;
mod tokens;
