//! Writes a text as an archive, looks at it in place, and reads it back.
#![tactic(auto)]

#[cfg(test)]
mod shared;

use anyhow::Result;
use archive_core::api::{access, from_bytes, to_bytes};
use archive_core::string::ArchivedString;

fn main(rt: HostRuntime) -> Result<()> {
    let value = String::from_str(rt.alloc(), "hello world")?;
    let bytes = to_bytes(rt.alloc(), &value)?;
    let view = access::<ArchivedString>(rt.alloc(), bytes.as_slice())?;
    println!(rt; "{} bytes: {}", bytes.len(), view.as_str())?;
    let back: String = from_bytes(rt.alloc(), bytes.as_slice(), &mut ())?;
    println!(rt; "read back: {back}")?;
    Ok(())
}
