//! Values of undo items, worked out by hand.

use std::process::Abort;
use tag_blocks::Undo;
use test_files::table;

struct Value {
    text: &'static [u8],
    says: Option<Undo>,
}

static VALUES: [Value; 14] = table! {
    Value { text, says }
    (b"-001,-001,W", Some(Undo { left: -1, right: -1, wrap: true }))
    (b"+000,+000,N", Some(Undo { left: 0, right: 0, wrap: false }))
    (b"+999,-999,N", Some(Undo { left: 999, right: -999, wrap: false }))
    (b"-120,+034,W", Some(Undo { left: -120, right: 34, wrap: true }))
    (b"", None)
    (b"+001,+001,", None)
    (b"+001,+001,NN", None)
    (b" 001,+001,N", None)
    (b"+0x1,+001,N", None)
    (b"+001;+001,N", None)
    (b"+001,0001,N", None)
    (b"+001,+00:,N", None)
    (b"+001,+001.N", None)
    (b"+001,+001,n", None)
};

/// Whether the value has this meaning, and is written as it was read.
fn says(case: &Value) -> bool {
    match (Undo::read(case.text), case.says) {
        (Some(undo), Some(says)) => undo == says && undo.text().as_slice() == case.text,
        (None, None) => true,
        _ => false,
    }
}

#[test]
fn values(rt: HostRuntime) {
    for (number, case) in VALUES.iter().enumerate() {
        assert!(rt; says(case), "row {number}");
    }
}
