//! Rows by hand.
use crate::{NumberSet, PairSet};
use hash_key::HashKey;
use std::test::Fail;

/// Sets keep the order in which numbers and pairs first came.
#[test]
fn sets_keep_their_order(rt: HostRuntime) -> Result<(), Fail> {
    let hash_key = HashKey::new(7);
    let mut numbers = NumberSet::new(rt.alloc(), hash_key);
    for (value, is_new) in [(7, true), (3, true), (7, false), (0, true), (3, false)] {
        assert_eq!(rt; numbers.insert(value)?, is_new, "{value}");
    }
    assert_eq!(rt; numbers.as_slice(), [7, 3, 0].as_slice());
    assert!(rt; numbers.has(0) && !numbers.has(1));
    let mut pairs = PairSet::new(rt.alloc(), hash_key);
    for (value, is_new) in [((1, 2), true), ((2, 1), true), ((1, 2), false)] {
        assert_eq!(rt; pairs.insert(value)?, is_new, "{}", value.0);
    }
    assert_eq!(rt; pairs.as_slice(), [(1, 2), (2, 1)].as_slice());
    assert!(rt; pairs.has((2, 1)) && !pairs.has((1, 1)));
    Ok(())
}
