//! Stamps of ages: a Forget ends those of its slot, and no others.
ghost use Rattle.std.specs.Prelude.{◌≡◌, ◌<◌};

use sf_keyed_ages::{Ages, AgesFront};
use std::test::Fail;

// Whether what was stamped at this age is current, for a caller that knows nothing.
fn is_current(ages: &Ages, slot: u64, stamp: u64) -> bool
    requires { slot < ages.now.slots }
{
    ages.is_still(&mut ages.enter(), slot, stamp)
}

// Whether what was stamped at this age is current until a Forget of the slot, and not from then on.
fn ends(ages: &Ages, me: &mut AgesFront, slot: u64, stamp: u64) -> bool
    requires { (me.old.of ≡ ages.now.table) × (slot < ages.now.slots) }
    ensures { me.new.of ≡ ages.now.table }
{
    is_current(ages, slot, stamp) && ages.end(me, slot) && !is_current(ages, slot, stamp)
}

// Whether what is stamped now is current, for a caller that knows nothing and for this one.
fn stamps(ages: &Ages, me: &mut AgesFront, slot: u64) -> bool
    requires { (me.old.of ≡ ages.now.table) × (slot < ages.now.slots) }
    ensures { me.new.of ≡ ages.now.table }
{
    let stamp = ages.draw(me, slot);
    is_current(ages, slot, stamp) && ages.is_still(me, slot, stamp)
}

#[test]
fn a_forget_ends_the_stamps_of_its_slot(rt: HostRuntime) -> Result<(), Fail> {
    let ages = Ages::new(rt.alloc(), 4)?;
    let mut me = ages.enter();
    let stamp = ages.draw(&mut me, 3);
    let other = ages.draw(&mut me, 2);
    assert!(rt; ends(&ages, &mut me, 3, stamp) && is_current(&ages, 2, other));
    assert!(rt; stamps(&ages, &mut me, 3));
    Ok(())
}

// Whether a Forget of one result ends what was stamped at this age.
fn ends_one(ages: &Ages, me: &mut AgesFront, slot: u64, stamp: u64) -> bool
    requires { (me.old.of ≡ ages.now.table) × (slot < ages.now.slots) }
    ensures { me.new.of ≡ ages.now.table }
{
    ages.end_at(me, slot, stamp) && !is_current(ages, slot, stamp)
}

#[test]
fn a_forget_of_one_result_ends_its_stamp(rt: HostRuntime) -> Result<(), Fail> {
    let ages = Ages::new(rt.alloc(), 4)?;
    let mut me = ages.enter();
    let stamp = ages.draw(&mut me, 1);
    assert!(rt; ends_one(&ages, &mut me, 1, stamp));
    // One that was ended before ends nothing more, and one that the slot never had ends nothing.
    let next = ages.draw(&mut me, 1);
    assert!(rt; ends_one(&ages, &mut me, 1, stamp));
    assert!(rt; !ages.end_at(&mut me, 1, next.wrapping_add(1)));
    assert!(rt; is_current(&ages, 1, next));
    Ok(())
}
