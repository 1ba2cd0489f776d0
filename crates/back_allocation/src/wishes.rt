// What registers ask of the places where they stand.

ghost use Rattle.std.specs.Prelude.{◌≡◌, ◌≤◌, ◌<◌, true, length, Some, IfOk};
ghost use Rattle.back_liveness.specs.Liveness.{IsWithin};
ghost use Rattle.back_scan.specs.declared.spot.Wish.TheVariants.{Only, InSlot};
ghost use Rattle.back_liveness.specs.declared.step.Interval.{Interval};
ghost use Rattle.back_allocation.specs.Wishes.{IsOwnWish, WishesHold};
ghost use Rattle.back_allocation.specs.Slots.{IsAskedFor, AreAsked, owner_at};

use back_liveness::{CrossedList, Interval, IntervalList};
use back_scan::{Wish, WishList};
use base::NoMemory;
use mid_code::Register;
use std::alloc::Global;

/// What names ask: a slot where a barrier crosses them, for they have to outlast calls; where one is alive at the entry, the value register in which its
/// owner is passed, or a slot where that is passed in none; else any.
pub fn wishes_of(
    alloc: Global,
    intervals: &IntervalList,
    crossed: &CrossedList,
    parameters: usize,
    owners: &[usize],
) -> Result<WishList, NoMemory>
    requires { length crossed.now ≡ length intervals.now }
    ensures count { IfOk result (λ wishes. length wishes ≡ length intervals.now) }
    ensures hold { IfOk result (λ wishes. WishesHold intervals.now crossed.now parameters (length intervals.now) wishes) }
    ensures asked { IfOk result (λ wishes. AreAsked intervals.now crossed.now parameters owners.now (length intervals.now) wishes) }
{
    let mut wishes = WishList::new(alloc);
    let all = intervals.as_slice();
    let told = crossed.as_slice();
    for register in 0..all.len() {
        let owner = owner_of(owners, register);
        let wish = wish_of(all[register], told[register], register, owner, parameters);
        wishes.push(wish)?;
    }
    Ok(wishes)
}

fn wish_of(
    interval: Option<Interval>,
    is_crossed: bool,
    register: Register,
    owner: Register,
    parameters: usize,
) -> Wish
    ensures crossed { is_crossed ≡ true → result ≡ InSlot }
    ensures passed { register < parameters → IsWithin interval 0 → IsOwnWish register result }
    ensures asked { (i : Interval) → interval ≡ Some i → IsAskedFor parameters register owner i is_crossed result }
{
    match interval {
        None => Wish::InSlot,
        Some(interval) => {
            if is_crossed {
                Wish::InSlot
            } else if interval.from == 0 && register < parameters {
                own_wish(register)
            } else if interval.from == 0 && owner < parameters {
                own_wish(owner)
            } else {
                Wish::Any
            }
        }
    }
}

// The register that a name is one of; itself behind the end.
fn owner_of(owners: &[usize], name: usize) -> usize
    ensures { result ≡ owner_at owners.now name }
{
    if name < owners.len() {
        owners[name]
    } else {
        name
    }
}

// A parameter stays in the register in which it is passed.
fn own_wish(parameter: Register) -> Wish
    ensures own { IsOwnWish parameter result }
    ensures register { parameter < 14 → result ≡ Only parameter }
    ensures slot { 14 ≤ parameter → result ≡ InSlot }
{
    if parameter < 14 {
        Wish::Only(parameter)
    } else {
        Wish::InSlot
    }
}
