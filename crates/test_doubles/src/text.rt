//! What a value shows of itself.

use std::alloc::{AllocError, AllocGlobal, Global};
use std::fmt::Debug;
use std::io::Eprint;

/// The Debug text of a value.
pub fn text_of<T: Debug>(alloc: Global, value: &T) -> Result<String, AllocError> {
    format!(in alloc; "{value:?}")
}

/// Whether a value's Debug text ends so. If it does not, the text is printed.
pub fn shows<R: AllocGlobal + Eprint>(rt: &R, value: &impl Debug, wanted: &str) -> bool {
    let Ok(text) = format!(in rt.alloc(); "{value:?}") else {
        return false;
    };
    let is_so = text.as_str().ends_with(wanted);
    if !is_so {
        let _ = rt.eprintln(format_args!("it shows {text}, and not {wanted}"));
    }
    is_so
}
