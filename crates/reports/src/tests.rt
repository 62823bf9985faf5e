// Where memory is there, words are read.
use crate::hexes::{Unreadable, bytes_of};

#[test]
fn words_are_read(rt: HostRuntime) {
    let bytes = bytes_of(rt.alloc(), "00ff7a");
    assert!(rt; bytes.is_ok_and(|bytes| bytes.as_slice() == [0, 255, 122].as_slice()));
    let damaged = bytes_of(rt.alloc(), "00Ff");
    assert!(rt; damaged.is_err_and(|reason| reason == Unreadable::Damaged));
}
