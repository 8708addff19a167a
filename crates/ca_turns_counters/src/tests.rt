use crate::{Event, count};
use std::test::Fail;

// Whether these are the numbers below n, each once.
fn is_each_once(mut numbers: Vec<u64>, n: u64) -> bool {
    numbers.sort_unstable();
    numbers.len() as u64 == n && numbers.iter().zip(0..n).all(|(number, i)| *number == i)
}

#[test]
fn four_hands_add_to_pairs_of_three_counters(rt: HostRuntime) -> Result<(), Fail> {
    let low = Event::Pair(0);
    let high = Event::Pair(1);
    let counted = count(&rt, rt.alloc(), 3, 4, false, &low, &high, 250)?;
    assert!(rt; counted.counters.as_slice() == [1000, 2000, 1000].as_slice());
    assert!(rt; is_each_once(counted.numbers, 2000));
    Ok(())
}

#[test]
fn a_hand_is_joined_while_another_works(rt: HostRuntime) -> Result<(), Fail> {
    let one = Event::One(0);
    let pair = Event::Pair(0);
    let counted = count(&rt, rt.alloc(), 2, 4, true, &one, &pair, 500)?;
    assert!(rt; counted.counters.as_slice() == [2000, 1000].as_slice());
    assert!(rt; is_each_once(counted.numbers, 2000));
    Ok(())
}
