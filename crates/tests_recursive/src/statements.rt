// A recursive type that holds one of another family.

use crate::assertions::{
    assert_changed, assert_holds, assert_read, assert_same, assert_written, tag_of_none, viewed,
};
use recursive_types::expr::{Expr, ExprView};
use recursive_types::stmt::{ArchivedStmt, Stmt, StmtView, ViewOfStmt};
use std::alloc::{AllocError, Global};
use std::process::Abort;

fn block(alloc: Global) -> Result<Stmt, AllocError> {
    let first = Stmt::Set(Expr::Num(5), Some(Expr::Num(6)));
    let second = Stmt::Set(Expr::Num(7), None);
    Ok(Stmt::Block(vec![in alloc; first, second]?))
}

// At 0 the tag 0, at 8 the tag of 5, at 32 that of an option, and at 40 that of 6; numbers lie eight bytes behind their tags. At 64 the same, without a value. At
// 128 the tag 1, and two elements 132 bytes back.
const BLOCK: &[u8] = b"\0\0\0\0\0\0\0\0\0\0\0\0\0\0\0\0\x05\0\0\0\0\0\0\0\0\0\0\0\0\0\0\0\
    \x01\0\0\0\0\0\0\0\0\0\0\0\0\0\0\0\x06\0\0\0\0\0\0\0\0\0\0\0\0\0\0\0\
    \0\0\0\0\0\0\0\0\0\0\0\0\0\0\0\0\x07\0\0\0\0\0\0\0\0\0\0\0\0\0\0\0\
    \0\0\0\0\0\0\0\0\0\0\0\0\0\0\0\0\0\0\0\0\0\0\0\0\0\0\0\0\0\0\0\0\
    \x01\0\0\0\x7c\xff\xff\xff\x02\0\0\0\0\0\0\0\0\0\0\0\0\0\0\0\0\0\0\0\0\0\0\0\
    \0\0\0\0\0\0\0\0\0\0\0\0\0\0\0\0\0\0\0\0\0\0\0\0\0\0\0\0\0\0\0\0";

#[test]
fn block_of_two(rt: HostRuntime) {
    let block = block(rt.alloc()).expect(&rt, "a block");
    assert_written(&rt, rt.alloc(), &block, BLOCK);
    assert_read(&rt, rt.alloc(), BLOCK, &block);
}

fn assert_viewed(rt: &impl Abort, alloc: Global) {
    match viewed::<ArchivedStmt>(rt, alloc, BLOCK).variant() {
        ViewOfStmt::Block(statements) => {
            let Some(first) = statements.as_slice().get(0) else {
                assert_holds(rt, "there are two statements", false);
                return;
            };
            assert_same(rt, "the tag of the first", first.tag(), 0);
        }
        ViewOfStmt::Set(_, value) => assert_holds(rt, "a block", value.as_ref().is_none()),
    }
}

#[test]
fn block_as_it_lies(rt: HostRuntime) {
    assert_viewed(&rt, rt.alloc());
}

// Tags of the first statement, of the expression in it, and of the option in the second.
#[test]
fn tags_of_no_variant(rt: HostRuntime) {
    let rows = [
        (0, "ArchivedStmt"),
        (8, "ArchivedExpr"),
        (32, "ArchivedOption"),
    ];
    for (at, name) in rows {
        assert_changed::<ArchivedStmt>(&rt, rt.alloc(), BLOCK, at, 9, tag_of_none(name, 9));
    }
}
