use crate::{Assign, AssignList};
use std::test::Fail;

#[test]
fn maps_with_two_values_at_a_position_do_not_join(rt: HostRuntime) {
    let one = Assign::empty().with(0, 1);
    let two = Assign::empty().with(0, 2);
    assert!(rt; one.join(&two).is_none());
}

#[test]
fn maps_at_two_positions_join(rt: HostRuntime) -> Result<(), Fail> {
    let one = Assign::empty().with(0, 1);
    let two = Assign::empty().with(5, 2);
    let both = one.join(&two).ok_or("no map")?;
    assert!(rt; both == one.with(5, 2));
    assert_eq!(rt; both.count(), 2);
    assert!(rt; both.contains(&two));
    assert!(rt; !one.contains(&two));
    Ok(())
}

#[test]
fn the_last_position_stands_in_the_last_word(rt: HostRuntime) -> Result<(), Fail> {
    let words = Assign::empty().with(95, 8).words();
    assert_eq!(rt; words, [0, 0, 0, 0, 0, 1 << 63]);
    assert!(rt; Assign::of_words([0, 0, 9 << 8, 0, 0, 0]).is_none());
    let map = Assign::of_words(words).ok_or("no map")?;
    assert_eq!(rt; map.get(95), 8);
    Ok(())
}

#[test]
fn a_list_has_its_maps_in_the_order_of_pushing(rt: HostRuntime) -> Result<(), Fail> {
    let one = Assign::empty().with(0, 1);
    let two = one.with(1, 8);
    let mut maps = AssignList::new(rt.alloc());
    maps.push(one)?;
    maps.push(two)?;
    assert_eq!(rt; maps.as_slice(), [one, two].as_slice());
    Ok(())
}

fn moved<T: Send + Sync>(value: T) -> T {
    value
}

#[test]
fn a_map_may_cross_threads(rt: HostRuntime) {
    assert_eq!(rt; moved(Assign::empty()).count(), 0);
}
