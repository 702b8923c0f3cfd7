//! What a `OnceCell` does on one thread.

mod drops;
mod inside;
mod kept;
mod leaving;
mod order;
mod owner;
mod schedules;
mod second_queue;
mod shown;
mod tokens;
mod turns;
mod waits;
