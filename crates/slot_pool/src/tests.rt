use super::*;
use std::test::Fail;

// Values are found, changed and taken; a slot that was given up serves again; what is left goes with the pool.
#[test]
fn keeps_values_in_slots(rt: HostRuntime) -> Result<(), Fail> {
    let mut pool: Pool<String> = Pool::new(rt.alloc());
    assert!(rt; pool.reserve(2).is_ok());
    let first = pool.put(String::from_str(rt.alloc(), "first")?);
    let second = pool.put(String::from_str(rt.alloc(), "second")?);
    assert_eq!(rt; pool.get(first).as_str(), "first");
    pool.get_mut(second).push_str(" and more")?;
    assert_eq!(rt; pool.get(second).as_str(), "second and more");
    assert_eq!(rt; pool.take(first).as_str(), "first");
    let third = pool.put(String::from_str(rt.alloc(), "third")?);
    assert!(rt; third != second);
    assert_eq!(rt; pool.get(third).as_str(), "third");
    Ok(())
}

#[test]
fn gives_three_hundred_distinct_slots(rt: HostRuntime) -> Result<(), Fail> {
    let mut pool: Pool<u64> = Pool::new(rt.alloc());
    assert_eq!(rt; pool.reserve(4_294_967_295), Err(PoolRefused::PoolFull));
    if pool.reserve(300).is_err() {
        return Err(Fail::from("no memory"));
    }
    let mut slots = Vec::new(rt.alloc());
    for value in 0..300 {
        slots.push(pool.put(value))?;
    }
    for (place, slot) in slots.iter().enumerate() {
        assert!(rt; !slots[..place].contains(slot), "{place}");
    }
    Ok(())
}
