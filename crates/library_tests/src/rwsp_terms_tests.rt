use rwsp_terms::{RuleList, Weights};
use std::test::Fail;
use test_helpers::{D, N, OFF};

#[test]
fn rules_in_order(rt: HostRuntime) -> Result<(), Fail> {
    let mut named = RuleList::new(rt.alloc());
    for number in [7, 3, 176, 3] {
        named.put(number)?;
    }
    assert_eq!(rt; named.numbers(), [3, 7, 176].as_slice());
    Ok(())
}

#[test]
fn weights_in_order(rt: HostRuntime) -> Result<(), Fail> {
    let mut weights = Weights::new(rt.alloc());
    for (day, symbol, value) in [(2, D, -1000), (1, N, 5), (1, OFF, 1), (1, N, 0)] {
        weights.put(day, symbol, value)?;
    }
    assert_eq!(rt; weights.len(), 2);
    let values = [weights.at(2, D), weights.at(1, OFF), weights.at(1, N)];
    assert_eq!(rt; values, [-1000, 1, 0]);
    Ok(())
}
