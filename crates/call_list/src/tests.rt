// Who has a number gets its float by `unwrap`, with nothing more to prove.
use crate::{Number, real_of};

#[test]
fn a_number_is_a_float(rt: HostRuntime) {
    let whole = Number::Whole {
        minus: true,
        size: 3,
    };
    assert!(rt; real_of(Some(whole)).unwrap() == -3.0);
    let half = Number::Bits(0x3fe0_0000_0000_0000);
    assert!(rt; real_of(Some(half)).unwrap() == 0.5);
    assert!(rt; real_of(None).is_none());
}
