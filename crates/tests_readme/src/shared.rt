// A shared value is read back by a crate whose line in crates.txt is that of README.md.

use archive_core::api::{from_bytes, to_bytes};
use archive_core::pooling::Pool;
use archive_core::rc::Shared;
use std::rc::Rc;
use std::test::Fail;

type Pair = (Shared<u32>, Shared<u32>);

#[test]
fn a_shared_value_is_read_back_once(rt: HostRuntime) -> Result<(), Fail> {
    let value = Rc::new(rt.alloc(), 10)?;
    let shared = Shared { key: 1, value };
    let pair: Pair = (shared.clone()?, shared);
    let bytes = to_bytes(rt.alloc(), &pair)?;
    let mut pool: Pool<Shared<u32>> = Pool::new(rt.alloc());
    let back: Pair = from_bytes(rt.alloc(), bytes.as_slice(), &mut pool)?;
    println!(rt; "{} bytes, {} twice", bytes.len(), *back.0.value)?;
    Ok(())
}
