// The words of procedures: their code and the tables of their switches.

ghost use Rattle.std.specs.Prelude.{◌≡◌, ◌+◌, ◌*◌, ◌^◌, ◌<◌, ◌++◌, length, map, ◌≤◌, slice_index, OnOk, IfErr};
ghost use Rattle.rv_encode.specs.Encodes.{word_of};
ghost use Rattle.back_emit.specs.declared.errors.EmitError.TheVariants.{TooLarge};
ghost use Rattle.back_layout.specs.Sizes.{switch_targets};
ghost use Rattle.back_emit.specs.PlacedLines.{line_position};
ghost use Rattle.back_program_code.specs.Joined.{joined};
ghost use Rattle.back_program_code.specs.Shapes.{shape_words, all_entries, code_end, body_position, FitsShape, EachShapeFits, AreLow};
ghost use Rattle.back_program_code.specs.ShapedImage.{line_instructions, shape_code, line_table, shape_image, numbered_image};

use crate::entries::body_position;
use crate::front::Front;
use crate::lefts::{LeftTable, NearTable, put_entry, target_count};
use crate::shapes::{Shape, ShapeList, sizing_of};
use back_emit::code_of_lines::{put_behind, put_line};
use back_emit::placing::{EntryList, entry_position, line_position, placed_spot};
use back_emit::sizes::{LeftList, NearList, left_at};
use back_emit::{CodeList, EmitError};
use base::{NoMemory, WordList};
use mid_lines::{Line, TargetList};
use rv_encode::encode;
use std::alloc::Global;

/// Appends the words of instructions.
pub fn put_encoded(words: &mut WordList, code: &CodeList) -> Result<(), NoMemory>
    ensures { OnOk result (words.new ≡ words.old ++ map word_of code.now) }
{
    for instr in code.as_slice() {
        words.push(encode(*instr))?;
    }
    Ok(())
}

/// Appends the instructions of all lines of a procedure.
pub fn put_lines(
    alloc: Global,
    code: &mut CodeList,
    front: Front,
    entries: &EntryList,
    at: u32,
    nears: &NearList,
    lefts: &LeftList,
    shape: &Shape,
) -> Result<(), EmitError>
    requires { FitsShape front shape.now × (at + shape_words front lefts.now shape.now < 2 ^ 24) × AreLow entries.now }
    ensures ok { OnOk result (code.new ≡ code.old ++ joined (line_instructions front entries.now at nears.now lefts.now shape.now) 0 shape.now.chosen.lines) }
    ensures err { IfErr result (λ e. e ≡ TooLarge →
        2 ^ 24 ≤ length (joined (line_instructions front entries.now at nears.now lefts.now shape.now) 0 shape.now.chosen.lines)) }
{
    let mut scratch = CodeList::new(alloc);
    let body = body_position(&mut scratch, front, at, lefts, shape)?;
    let sizing = sizing_of(front, shape);
    let mut table = body + left_at(lefts, 0) as u32;
    let count = shape.chosen.lines.as_slice().len();
    for i in 0..count {
        let Some(line) = shape.chosen.lines.get(i) else {
            unreachable!()
        };
        let spot = placed_spot(
            sizing,
            &shape.ways,
            nears,
            lefts,
            entries,
            body,
            i,
            table,
            line,
        );
        put_line(code, &spot, &shape.chosen.places, line)?;
        put_behind(code, &spot, &shape.chosen.places, line)?;
        table += target_count(line) as u32;
    }
    Ok(())
}

/// Appends the addresses of lines, in a body at a position.
pub fn put_targets(
    words: &mut WordList,
    lefts: &LeftList,
    body: u32,
    targets: &TargetList,
) -> Result<(), NoMemory>
    requires { body + slice_index lefts.now 0 < 2 ^ 24 }
    ensures { OnOk result (words.new ≡ words.old ++ map (λ to. 4 * line_position lefts.now body to) targets.now) }
{
    for target in targets.as_slice() {
        words.push(4 * line_position(lefts, body, *target))?;
    }
    Ok(())
}

/// Appends the table of a line's switch: the addresses of the lines to which it goes.
pub fn put_table(
    words: &mut WordList,
    lefts: &LeftList,
    body: u32,
    line: &Line,
) -> Result<(), NoMemory>
    requires { body + slice_index lefts.now 0 < 2 ^ 24 }
    ensures { OnOk result (words.new ≡ words.old ++ map (λ to. 4 * line_position lefts.now body to) (switch_targets line.now)) }
{
    if let Line::Switch { targets, .. } = line {
        put_targets(words, lefts, body, targets)
    } else {
        Ok(())
    }
}

/// Appends the tables of all switches of a procedure.
pub fn put_tables(
    alloc: Global,
    words: &mut WordList,
    front: Front,
    entries: &EntryList,
    at: u32,
    nears: &NearList,
    lefts: &LeftList,
    shape: &Shape,
) -> Result<(), NoMemory>
    requires { FitsShape front shape.now × (at + shape_words front lefts.now shape.now < 2 ^ 24) }
    ensures { OnOk result (words.new ≡ words.old ++ joined (line_table front entries.now at nears.now lefts.now shape.now) 0 shape.now.chosen.lines) }
{
    let mut scratch = CodeList::new(alloc);
    let body = body_position(&mut scratch, front, at, lefts, shape)?;
    for i in 0..shape.chosen.lines.len() {
        let Some(line) = shape.chosen.lines.get(i) else {
            unreachable!()
        };
        put_table(words, lefts, body, line)?;
    }
    Ok(())
}

/// Appends the words of a procedure: its entry, its lines, its tables.
pub fn put_shape(
    alloc: Global,
    words: &mut WordList,
    front: Front,
    entries: &EntryList,
    at: u32,
    nears: &NearList,
    lefts: &LeftList,
    shape: &Shape,
) -> Result<(), EmitError>
    requires { FitsShape front shape.now × (at + shape_words front lefts.now shape.now < 2 ^ 24) × AreLow entries.now }
    ensures ok { OnOk result (words.new ≡ words.old ++ shape_image front entries.now at nears.now lefts.now shape.now) }
    ensures err { IfErr result (λ e. e ≡ TooLarge → 2 ^ 24 ≤ length (shape_image front entries.now at nears.now lefts.now shape.now)) }
{
    let mut code = CodeList::new(alloc);
    put_entry(&mut code, front, at, shape)?;
    put_lines(alloc, &mut code, front, entries, at, nears, lefts, shape)?;
    put_encoded(words, &code)?;
    Ok(put_tables(alloc, words, front, entries, at, nears, lefts, shape)?)
}

/// Appends the words of all procedures.
pub fn put_shapes(
    alloc: Global,
    words: &mut WordList,
    front: Front,
    entries: &EntryList,
    nears: &NearTable,
    lefts: &LeftTable,
    shapes: &ShapeList,
) -> Result<(), EmitError>
    requires { EachShapeFits front shapes.now × (length lefts.now ≡ length shapes.now) × (length nears.now ≡ length shapes.now)
        × (entries.now ≡ all_entries front lefts.now shapes.now) × (code_end front lefts.now shapes.now < 2 ^ 24) }
    ensures ok { OnOk result (words.new ≡ words.old ++ joined (numbered_image front entries.now nears.now lefts.now) 0 shapes.now) }
    ensures err { IfErr result (λ e. e ≡ TooLarge → 2 ^ 24 ≤ length (joined (numbered_image front entries.now nears.now lefts.now) 0 shapes.now)) }
{
    for number in 0..shapes.len() {
        let Some(shape) = shapes.get(number) else {
            unreachable!()
        };
        let Some(left) = lefts.get(number) else {
            unreachable!()
        };
        let Some(near) = nears.get(number) else {
            unreachable!()
        };
        let at = entry_position(entries, number);
        put_shape(alloc, words, front, entries, at, near, left, shape)?;
    }
    Ok(())
}
