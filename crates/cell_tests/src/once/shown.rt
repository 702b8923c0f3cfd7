//! As which error a refusal ends a poll.

use crate::doubles::poll::Refusal;
use crate::doubles::same;
use async_once_cell::once::{InitError, Refused};
use async_once_cell::record::Reply;
use std::io;
use std::test::Fail;

/// A refusal is the error of a poll that may fail otherwise too. As an error of input and output it prints the same.
#[test]
fn refusals_as_errors(rt: HostRuntime) -> Result<(), Fail> {
    let rows = [
        (Refused::Memory, Reply::Memory),
        (Refused::Full, Reply::Full),
    ];
    for (refused, reply) in rows {
        let error = io::Error::from(refused);
        let printed = format!(in rt.alloc(); "{error}")?;
        let wanted = format!(in rt.alloc(); "{refused}")?;
        same(&rt, "printed", printed, wanted);
        same(&rt, "error", InitError::<u64>::from(refused).reply(), reply);
    }
    Ok(())
}
