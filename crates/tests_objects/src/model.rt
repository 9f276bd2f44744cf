//! Texts of notes, written by hand, and that the law on releases can be called.
use qo_model::laws::law_release_keeps;
use qo_model::{Deed, Note};
use qo_values::{Act, TypeId};
use std::marker::Brand;

#[test]
fn texts(rt: HostRuntime) {
    let rows = [
        (9, Deed::Did(Act::Init(TypeId::Device)), "init 9 device"),
        (9, Deed::Did(Act::Enter), "enter 9"),
        (9, Deed::Did(Act::Wake), "wake 9"),
        (9, Deed::Did(Act::Pre), "pre 9"),
        (9, Deed::Final(TypeId::Device), "final 9 device"),
        (145, Deed::Did(Act::Unrealize), "unrealize 145"),
    ];
    for (birth, deed, want) in rows {
        let note = Note { birth, deed };
        let text = note.text(rt.alloc()).expect(&rt, "ample memory");
        assert_eq!(rt; text.as_str(), want);
    }
}

#[test]
fn release_induction_can_be_called(_rt: HostRuntime) {
    law_release_keeps::<Brand>();
}
