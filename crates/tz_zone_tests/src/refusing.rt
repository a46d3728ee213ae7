//! The allocator that refuses.

use crate::expect::{expect_eq, expect_eq_at};
use std::alloc::{AllocError, Allocator};
use std::test::Fail;
use tz_samples::refusing::Refusing;

#[test]
fn passes_on_as_many_as_it_was_given(rt: HostRuntime) {
    for left in 0..4u64 {
        let heap = Refusing::new(rt.alloc(), left);
        for asked in 0..6u64 {
            let passed_on = Box::new(&heap, 7u8).is_ok();
            expect_eq_at(&rt, &left, &(asked, passed_on), &(asked, asked < left));
        }
        expect_eq(&rt, &heap.refused(), &(6 - left));
    }
}

/// The numbers below 100, in room that is asked for again and again.
fn hundred<A: Allocator>(alloc: A) -> Result<Vec<u8, A>, AllocError> {
    let mut v = Vec::with_capacity(alloc, 1)?;
    for item in 0..100u8 {
        v.push(item)?;
    }
    Ok(v)
}

#[test]
fn frees_by_the_inner_allocator(rt: HostRuntime) -> Result<(), Fail> {
    let inner = Refusing::new(rt.alloc(), 10);
    let heap = Refusing::new(&inner, 10);
    let v = hundred(&heap)?;
    expect_eq(&rt, &v.len(), &100);
    expect_eq(&rt, &v.last(), &Some(&99));
    expect_eq(&rt, &(heap.held(), inner.held()), &(1, 1));
    drop(v);
    expect_eq(&rt, &(heap.held(), inner.held()), &(0, 0));
    Ok(())
}
