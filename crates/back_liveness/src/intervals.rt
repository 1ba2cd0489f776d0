// For each register one interval of lines, outside of which it is not alive, and whether a barrier crosses it.

ghost use Rattle.std.specs.Prelude.{◌≡◌, ◌≤◌, ◌<◌, ◌+◌, ◌^◌, ℕ, true, length, slice_get, slice_index, slice_index_or, Some, None, IfOk};
ghost use Rattle.back_liveness.specs.declared.step.Interval.{Interval};
ghost use Rattle.back_liveness.specs.declared.step.Step.{Step};
ghost use Rattle.back_liveness.specs.Liveness.{is_read, IsLive, IsWithin, IsCovered, IsEndOf, IsWanted, IsCrossedWithin, OnlyCrossed, AreStructured, AreTight, Covers};
ghost use Rattle.back_liveness.specs.Ahead.{alive_ahead};
ghost use Rattle.back_liveness.specs.Barriers.{TellsLoop};
ghost use Rattle.back_liveness.specs.Heads.{AreHeads, AreSources, AreFloors, AreRoofs, AreNested};
ghost use Rattle.back_liveness.specs.Points.{EndsBy, EndBy, ArePoints, HasLoop, HaveLives, PartsOf, IsPoint};

use crate::barrier::{Barrier, crosses};
use crate::heads::{Heads, are_nested, heads_of};
use crate::lives::{Lived, life_of};
use crate::parts::in_one;
use crate::points::points_of;
use crate::step::{Interval, IntervalList, PartList, PartLists, StepList};
use base::{ItemList, NoMemory};
use mid_code::Register;
use std::alloc::Global;

/// The intervals of registers, and whether a barrier crosses them where they are alive, by the numbers of registers.
#[derive(Drop)]
pub struct LiveIntervals {
    pub intervals: IntervalList,
    pub parts: PartLists,
    pub crossed: CrossedList,
}

/// Whether barriers cross registers.
pub type CrossedList = ItemList<bool>;

/// For each of so many registers an interval that has all lines at which the register is alive, and those behind lines that
/// write it; none for a register that has no such line; its parts, which have these lines too; and whether a barrier crosses it: told
/// of each that is crossed where it is alive, and only of such as are crossed at some line of their interval. No interval is longer than
/// it has to be; but where loops are entered elsewhere than at their heads it has all lines.
pub fn live_intervals(
    alloc: Global,
    steps: &StepList,
    barriers: &[Barrier],
    registers: usize,
) -> Result<LiveIntervals, NoMemory>
    requires { length steps.now < 2 ^ 62 }
    ensures count { IfOk result (λ found. length found.intervals ≡ registers) }
    ensures count_parts { IfOk result (λ found. length found.parts ≡ registers) }
    ensures crossed { IfOk result (λ found. length found.crossed ≡ registers) }
    ensures covers { IfOk result (λ found. Covers steps.now barriers.now found.intervals found.parts found.crossed) }
    ensures only { IfOk result (λ found. OnlyCrossed barriers.now found.intervals found.crossed) }
    ensures ends { IfOk result (λ found. EndBy (length steps.now) found.intervals) }
    ensures tight { AreStructured steps.now → IfOk result (λ found. AreTight steps.now found.intervals) }
    ensures alive { IfOk result (λ found. (v line : ℕ) → v < registers → IsLive steps.now v line → IsCovered found.intervals v line) }
{
    let heads = heads_of(alloc, steps)?;
    if are_nested(heads.earliest.as_slice(), heads.latest.as_slice()) {
        lives(alloc, steps, &heads, barriers, registers)
    } else {
        whole(alloc, steps, barriers, registers)
    }
}

// All lines, for each register.
fn whole(
    alloc: Global,
    steps: &StepList,
    barriers: &[Barrier],
    registers: usize,
) -> Result<LiveIntervals, NoMemory>
    ensures count { IfOk result (λ found. length found.intervals ≡ registers) }
    ensures count_parts { IfOk result (λ found. length found.parts ≡ registers) }
    ensures crossed { IfOk result (λ found. length found.crossed ≡ registers) }
    ensures covers { IfOk result (λ found. Covers steps.now barriers.now found.intervals found.parts found.crossed) }
    ensures only { IfOk result (λ found. OnlyCrossed barriers.now found.intervals found.crossed) }
    ensures ends { IfOk result (λ found. EndBy (length steps.now) found.intervals) }
{
    let all = Interval {
        from: 0,
        to: steps.len(),
    };
    let mut intervals = IntervalList::new(alloc);
    let mut parts = PartLists::new(alloc);
    let mut crossed = CrossedList::new(alloc);
    for register in 0..registers {
        intervals.push(Some(all))?;
        parts.push(in_one(alloc, all)?)?;
        crossed.push(crosses(all, barriers, register))?;
    }
    Ok(LiveIntervals {
        intervals,
        parts,
        crossed,
    })
}

// The intervals of all registers, with all lines at which they are alive along paths forwards and the loops of those.
fn lives(
    alloc: Global,
    steps: &StepList,
    heads: &Heads,
    barriers: &[Barrier],
    registers: usize,
) -> Result<LiveIntervals, NoMemory>
    requires heads { AreHeads steps.now heads.now.earliest.items heads.now.latest.items }
    requires floors { AreFloors heads.now.earliest.items heads.now.floors.items }
    requires roofs { AreRoofs heads.now.latest.items heads.now.roofs.items }
    requires nested { AreNested heads.now.earliest.items heads.now.latest.items }
    requires room { length steps.now < 2 ^ 62 }
    requires sources { AreSources steps.now heads.now.earliest.items heads.now.latest.items }
    ensures count { IfOk result (λ found. length found.intervals ≡ registers) }
    ensures count_parts { IfOk result (λ found. length found.parts ≡ registers) }
    ensures crossed { IfOk result (λ found. length found.crossed ≡ registers) }
    ensures covers { IfOk result (λ found. Covers steps.now barriers.now found.intervals found.parts found.crossed) }
    ensures only { IfOk result (λ found. OnlyCrossed barriers.now found.intervals found.crossed) }
    ensures ends { IfOk result (λ found. EndBy (length steps.now) found.intervals) }
    ensures tight { IfOk result (λ found. AreTight steps.now found.intervals) }
{
    let points = points_of(alloc, steps, registers)?;
    let mut marks = vec![in alloc; false; steps.len() + 1]?;
    lives_with(
        alloc,
        steps,
        heads,
        barriers,
        points.as_slice(),
        marks.as_mut_slice(),
    )
}

// The same with the points of the registers.
fn lives_with(
    alloc: Global,
    steps: &StepList,
    heads: &Heads,
    barriers: &[Barrier],
    points: &[Option<Interval>],
    marks: &mut [bool],
) -> Result<LiveIntervals, NoMemory>
    requires heads { AreHeads steps.now heads.now.earliest.items heads.now.latest.items }
    requires floors { AreFloors heads.now.earliest.items heads.now.floors.items }
    requires roofs { AreRoofs heads.now.latest.items heads.now.roofs.items }
    requires nested { AreNested heads.now.earliest.items heads.now.latest.items }
    requires room { length steps.now < 2 ^ 62 }
    requires points { ArePoints steps.now (length steps.now) points.now }
    requires ends { EndBy (length steps.now) points.now }
    requires sources { AreSources steps.now heads.now.earliest.items heads.now.latest.items }
    requires only { (v x : ℕ) → IsEndOf (slice_index_or points.now v None) x → IsPoint steps.now v x }
    requires marks { length marks.old ≡ length steps.now + 1 }
    ensures count { IfOk result (λ found. length found.intervals ≡ length points.now) }
    ensures count_parts { IfOk result (λ found. length found.parts ≡ length points.now) }
    ensures crossed { IfOk result (λ found. length found.crossed ≡ length points.now) }
    ensures covers { IfOk result (λ found. Covers steps.now barriers.now found.intervals found.parts found.crossed) }
    ensures only { IfOk result (λ found. OnlyCrossed barriers.now found.intervals found.crossed) }
    ensures ends { IfOk result (λ found. EndBy (length steps.now) found.intervals) }
    ensures tight { IfOk result (λ found. AreTight steps.now found.intervals) }
{
    let mut intervals = IntervalList::new(alloc);
    let mut parts = PartLists::new(alloc);
    let mut crossed = CrossedList::new(alloc);
    for register in 0..points.len() {
        let found = interval_of(
            alloc,
            steps,
            heads,
            barriers,
            register,
            points[register],
            marks,
        )?;
        let Found {
            interval,
            parts: own,
            crossed: is_crossed,
        } = found;
        intervals.push(interval)?;
        parts.push(own)?;
        crossed.push(is_crossed)?;
    }
    Ok(LiveIntervals {
        intervals,
        parts,
        crossed,
    })
}

// The interval of a register, if it has one, its parts, and whether a barrier crosses it.
#[derive(Drop)]
pub(crate) struct Found {
    pub interval: Option<Interval>,
    pub parts: PartList,
    pub crossed: bool,
}

// The interval of a register with these points.
fn interval_of(
    alloc: Global,
    steps: &StepList,
    heads: &Heads,
    barriers: &[Barrier],
    register: Register,
    points: Option<Interval>,
    marks: &mut [bool],
) -> Result<Found, NoMemory>
    requires heads { AreHeads steps.now heads.now.earliest.items heads.now.latest.items }
    requires floors { AreFloors heads.now.earliest.items heads.now.floors.items }
    requires roofs { AreRoofs heads.now.latest.items heads.now.roofs.items }
    requires room { length steps.now < 2 ^ 62 }
    requires marks { length marks.old ≡ length steps.now + 1 }
    requires points { (line : ℕ) (s : Step) → slice_get steps.now line ≡ Some s → is_read s register ≡ true → IsWithin points line }
    requires ends { EndsBy (length steps.now) points }
    requires sources { AreSources steps.now heads.now.earliest.items heads.now.latest.items }
    requires only { (x : ℕ) → IsEndOf points x → IsPoint steps.now register x }
    ensures ahead { IfOk result (λ found. (line : ℕ) → alive_ahead steps.now register line ≡ true
        → HasLoop found.interval line (slice_index heads.now.latest.items line)) }
    ensures points { IfOk result (λ found. (line : ℕ) → IsWithin points line → IsWithin found.interval line) }
    ensures parts { IfOk result (λ found. PartsOf steps.now heads.now.latest.items register found.interval found.parts) }
    ensures crossed { IfOk result (λ found. (line : ℕ) → alive_ahead steps.now register line ≡ true
        → TellsLoop barriers.now heads.now.latest.items register line found.crossed) }
    ensures only { IfOk result (λ found. found.crossed ≡ true → IsCrossedWithin barriers.now found.interval register) }
    ensures ends { IfOk result (λ found. EndsBy (length steps.now) found.interval) }
    ensures tight { IfOk result (λ found. (x : ℕ) → IsEndOf found.interval x → IsWanted steps.now register x) }
{
    match points {
        Some(points) => {
            let lived = life_of(alloc, steps, heads, barriers, register, points, marks)?;
            let Lived {
                interval,
                parts,
                crossed,
            } = lived;
            Ok(Found {
                interval: Some(interval),
                parts,
                crossed,
            })
        }
        None => Ok(Found {
            interval: None,
            parts: PartList::new(alloc),
            crossed: false,
        }),
    }
}
