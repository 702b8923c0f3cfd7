//! Values that count when they are dropped.

use crate::doubles::stub::count;
use futures::Future;
use futures::task::{Context, Poll};
use std::cell::Cell;

/// A value that counts when it is dropped.
pub struct Value<'a> {
    pub drops: &'a Cell<u64>,
}

impl Drop for Value<'_> {
    fn drop(self) {
        let Value { drops } = self;
        count(drops);
    }
}

/// A future that makes one.
#[derive(Drop)]
pub struct Makes<'a> {
    pub drops: &'a Cell<u64>,
}

impl<'a> Future for Makes<'a> {
    type Output = Value<'a>;

    fn poll(&mut self, _cx: &mut Context<'_>) -> Poll<Value<'a>> {
        Poll::Ready(Value { drops: self.drops })
    }
}
