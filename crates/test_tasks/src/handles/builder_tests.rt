//! Tests of what handles and builders show, and of the word that a witness of each handle finds.
//! Of what is only tested (docs/PROOFS.md): Handles.

use crate::handles::check::check_script;
use async_task::Builder;
use std::alloc::Global;
use std::fmt;
use std::process::Abort;

// Each shows its own name, the flags, the count and the metadata, also parked or stored.
#[test]
fn handles_show_the_flags_the_count_and_the_metadata(rt: HostRuntime) {
    for text in [
        "spawn pending; runnable_shows 111; shows 111; fallible; shows 111; cancel; shows 111; drop_task; drop_runnable",
        "spawn pending; runnable_parks 111; parks 111; drop_runnable; drop_task",
        "spawn pending; waker; waker_shows 211; waker_parks 211; drop_waker; drop_task; drop_runnable",
    ] {
        check_script(rt, rt.alloc(), text);
    }
}

// A witness changes nothing, and `cancel` makes no step.
#[test]
fn a_witness_of_each_handle_finds_the_word(rt: HostRuntime) {
    check_script(
        rt,
        rt.alloc(),
        "spawn pending; runnable_finds 111; waker; waker_finds 211; run; finds 110; drop_waker; \
         fallible; finds 010; cancel; finds 010; drop_task",
    );
}

// Whether a value shows that text. Stops where there is no memory.
fn shows<R: Abort, T: fmt::Debug>(rt: &R, alloc: Global, value: &T, expected: &str) -> bool {
    format!(in alloc; "{value:?}")
        .expect(rt, "refused")
        .as_str()
        == expected
}

// Whether four builders show the metadata and the limit that they should: a new one, one whose limit is more than may be, one with both set, and a default.
fn show_builders<R: Abort>(rt: &R, alloc: Global) -> [bool; 4] {
    let unlimited = "Builder { metadata: (), limit: 36028797018963967 }";
    let builder = Builder::new();
    let new = shows(rt, alloc, &builder, unlimited);
    let builder = builder.reference_limit(18446744073709551615);
    let most = shows(rt, alloc, &builder, unlimited);
    let builder = builder.reference_limit(3).metadata(7u64);
    let limited = shows(rt, alloc, &builder, "Builder { metadata: 7, limit: 3 }");
    let builder: Builder<u64> = Builder::default();
    let default = "Builder { metadata: 0, limit: 36028797018963967 }";
    [new, most, limited, shows(rt, alloc, &builder, default)]
}

#[test]
fn builders_show_the_metadata_and_the_limit(rt: HostRuntime) {
    let shown = show_builders(&rt, rt.alloc());
    assert!(rt; shown == [true; 4]);
}
