//! What the calls of several crates are compared by.

use std::alloc::{AllocError, Global};
use std::process::Abort;

mod bags;
mod predicates;
mod queries;
mod shown;
mod tables;

/// The texts, one behind the other.
fn joined(alloc: Global, parts: &[&str]) -> Result<Vec<u8>, AllocError> {
    let mut all = Vec::new(alloc);
    for part in parts {
        all.extend_from_slice(part.as_bytes())?;
    }
    Ok(all)
}

fn expect_bytes(rt: &impl Abort, got: &[u8], want: &[u8], why: &str) {
    assert_eq!(rt; got, want, "{why}");
}
