//! A store in memory: how its puts end, and what it holds then.
use super::*;
use sb_checkpoint::{How, MemoryStore};

#[test]
fn a_put_ends_as_it_is_told(rt: HostRuntime) {
    let mut store = MemoryStore::new(rt.alloc());
    holds_nothing(&rt, &mut store);
    puts(&rt, &mut store, b"first", Ok(()), 0);
    has_content(&rt, &mut store, b"first");
    store.tell(How::Old);
    puts(&rt, &mut store, b"second", Err(StoreFault::Device), 1);
    has_content(&rt, &mut store, b"first");
    store.tell(How::New);
    puts(&rt, &mut store, b"third", Err(StoreFault::Device), 2);
    has_content(&rt, &mut store, b"third");
    // The next put succeeds again.
    puts(&rt, &mut store, b"fourth", Ok(()), 2);
    has_content(&rt, &mut store, b"fourth");
}
