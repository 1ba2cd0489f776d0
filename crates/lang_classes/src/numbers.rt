// The numbers of classes by their names, when some are cut.

ghost use Rattle.std.specs.Prelude.{◌≡◌, ◌≤◌, ℕ, Some, length, slice_get, take};
ghost use Rattle.std.specs.Ordering.{nat_cmp};
ghost use Rattle.std.specs.BTreeMap.{get};
ghost use Rattle.base.specs.declared.datum.Name.{Name as AName};
ghost use Rattle.lang_meaning.specs.declared.program.ClassRow.{ClassRow as Row};
ghost use Rattle.lang_classes.specs.InheritedClasses.{class_named};

use lang_meaning::{ClassId, ClassRows};
use std::collections::BTreeMap;

/// Forgets the numbers of all but the first `len` of these classes, each of which is the one of its name; takes no memory.
pub fn forget(numbers: &mut BTreeMap<usize, ClassId>, rows: &ClassRows, len: usize)
    requires fits { len ≤ length rows.now }
    requires named { (c : ℕ) (row : Row) → slice_get rows.now c ≡ Some row → class_named rows.now row.name ≡ Some c }
    requires found { (n : AName) → get nat_cmp numbers.old n.0 ≡ class_named rows.now n }
    ensures { (n : AName) → get nat_cmp numbers.new n.0 ≡ class_named (take len rows.now) n }
{
    let mut left = rows.len();
    while len < left {
        left -= 1;
        let Some(row) = rows.get(left) else {
            unreachable!()
        };
        numbers.remove(&row.name.0);
    }
}
