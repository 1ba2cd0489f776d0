// What stands in front of all procedures of an image.

ghost use Rattle.std.specs.Prelude.{◌≡◌, ◌+◌, ◌^◌, ◌<◌, ◌≤◌, max, length, map, IfOk, IfErr};
ghost use Rattle.back_layout.specs.ChosenPlaces.{arguments_passed, most_in_lines, most_arguments};
ghost use Rattle.back_program_code.specs.Shapes.{shapes_of, chosen_in, procedure_of, front_of, first_position};

use crate::shapes::ShapeList;
use back_emit::EmitError;
use base::WordList;
use mid_code::{MidProgram, Operation};
use mid_lines::{Line, LineList};

/// Where the words of arguments stand and how many they are, where the table of procedures is, and the jump to the procedure in which a run
/// begins; behind that stand the code that ends a run, and that for want of words.
#[derive(Clone, Copy)]
pub struct Front {
    pub arguments_at: u32,
    pub argument_words: u32,
    pub procedures_at: u32,
    pub start_at: u32,
}

/// What stands in front of the procedures of a program. It is too large where that is 2^24 words or more.
pub fn front_of(program: &MidProgram, shapes: &ShapeList) -> Result<Front, EmitError>
    requires { shapes.now ≡ shapes_of program.now (chosen_in shapes.now) }
    ensures ok { IfOk result (λ front. front ≡ front_of program.now) }
    ensures low { IfOk result (λ front. first_position front < 2 ^ 24) }
    ensures err { IfErr result (λ e. 2 ^ 24 ≤ first_position (front_of program.now)) }
{
    let laid = program.laid.len();
    let most = most_arguments(shapes);
    let count = shapes.len();
    if 16_777_216 <= laid {
        return Err(EmitError::TooLarge);
    }
    if 16_777_216 <= most {
        return Err(EmitError::TooLarge);
    }
    if 16_777_216 <= count {
        return Err(EmitError::TooLarge);
    }
    if 16_777_205 <= laid + most + count {
        return Err(EmitError::TooLarge);
    }
    Ok(Front {
        arguments_at: laid as u32,
        argument_words: most as u32,
        procedures_at: (laid + most) as u32,
        start_at: (laid + most + count) as u32,
    })
}

/// How many arguments a line passes.
pub fn arguments_passed(line: &Line) -> usize
    ensures { result ≡ arguments_passed line.now }
{
    if let Line::Do(Operation::Call { arguments, .. }) = line {
        arguments.len()
    } else {
        0
    }
}

fn larger(first: usize, second: usize) -> usize
    ensures { result ≡ max first second }
{
    if first < second { second } else { first }
}

/// The most that lines pass.
pub fn most_in_lines(lines: &LineList) -> usize
    ensures { result ≡ most_in_lines lines.now }
{
    let mut most = 0;
    for i in 0..lines.len() {
        let Some(line) = lines.get(i) else {
            unreachable!()
        };
        most = larger(most, arguments_passed(line));
    }
    most
}

/// The most that procedures pass, or take.
pub fn most_arguments(shapes: &ShapeList) -> usize
    ensures { result ≡ most_arguments (map procedure_of shapes.now) }
{
    let mut most = 0;
    for i in 0..shapes.len() {
        let Some(shape) = shapes.get(i) else {
            unreachable!()
        };
        let passed = most_in_lines(&shape.procedure.lines);
        let own = larger(shape.procedure.parameters, passed);
        most = larger(most, own);
    }
    most
}
