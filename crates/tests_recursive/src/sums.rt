// Functions of a user's own that match on views of a recursive type, with a `_` for what they don't look at.

use crate::assertions::{assert_same, viewed};
use archive_core::api::to_bytes;
use archive_core::error::Error;
use archive_core::view::Ref;
use recursive_types::expr::{ArchivedExpr, Expr, ExprView, ViewOfExpr};
use std::alloc::{AllocError, Global};

// The number of an expression that is one.
fn number(value: Ref<'_, ArchivedExpr>) -> Option<i64> {
    match value.variant() {
        ViewOfExpr::Num(it) => Some(it.get()),
        _ => None,
    }
}

// The sum of an expression of at most so many levels.
fn sum(value: Ref<'_, ArchivedExpr>, levels: u32) -> Option<i64> {
    if levels == 0 {
        return None;
    }
    match value.variant() {
        ViewOfExpr::Num(it) => Some(it.get()),
        ViewOfExpr::Add(one, other) => {
            sum(one.get(), levels - 1)?.checked_add(sum(other.get(), levels - 1)?)
        }
        ViewOfExpr::Call(_, parts) => {
            let mut all: i64 = 0;
            for part in parts.as_slice().iter() {
                all = all.checked_add(sum(part, levels - 1)?)?;
            }
            Some(all)
        }
    }
}

// Two, and what is called with three and minus one.
fn expression(alloc: Global) -> Result<Expr, AllocError> {
    let name = String::from_str(alloc, "both")?;
    let call = Expr::Call(name, vec![in alloc; Expr::Num(3), Expr::Num(-1)]?);
    Ok(Expr::Add(Box::new(alloc, Expr::Num(2))?, Box::new(alloc, call)?))
}

fn archived(alloc: Global) -> Result<Vec<u8>, Error> {
    to_bytes(alloc, &expression(alloc)?)
}

#[test]
fn an_expression_is_summed_in_place(rt: HostRuntime) {
    let bytes = archived(rt.alloc()).expect(&rt, "the archive");
    let view = viewed::<ArchivedExpr>(&rt, rt.alloc(), bytes.as_slice());
    assert_same(&rt, "its number", number(view), None);
    assert_same(&rt, "its sum", sum(view, 3), Some(4));
    assert_same(&rt, "with fewer levels", sum(view, 2), None);
}
