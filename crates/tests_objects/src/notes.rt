//! What no clause says: how large a note is.

use qo_model::Note;
use std::mem::size_of;

#[test]
fn takes_16_bytes_a_note(rt: HostRuntime) {
    assert_eq!(rt; size_of::<Note>(), 16);
}
