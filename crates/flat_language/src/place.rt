// Where the code of a procedure finds what it names: in its own frame, or among what its function captured.

/// Where a variable lives: in a slot of a frame, or, where a function captures it and a form sets it, in a box.
#[derive(Clone, Copy)]
pub enum Home {
    Slot,
    Boxed,
}

/// The place of a variable: a slot of the frame, a slot whose variable has a box, a captured value, or a
/// captured box, each by its number from 0.
#[derive(Clone, Copy)]
pub enum VariablePlace {
    Slot(usize),
    SlotBox(usize),
    CapturedValue(usize),
    CapturedBox(usize),
}

/// The place of an exit: one of the blocks and tagbodies around in the same procedure, the outermost one first, or a
/// captured exit.
#[derive(Clone, Copy)]
pub enum ExitPlace {
    Own(usize),
    Captured(usize),
}

/// The place of the arguments and the other methods of a method: the procedure is itself the method's, or its function
/// captured them.
#[derive(Clone, Copy)]
pub enum MethodPlace {
    Own,
    Captured(usize),
}

/// What is known of a variable where it is bound: its place, and whether it keeps its first value, since nothing sets it.
#[derive(Clone, Copy)]
pub struct Known {
    pub place: VariablePlace,
    pub fixed: bool,
}

/// What a captured thing is: the value of a variable, its box, an exit, or the arguments and the other methods of a
/// method.
#[derive(Clone, Copy)]
pub enum CapturedKind {
    Value,
    Boxed,
    Exit,
    Method,
}

/// What a function captures, by its place where the function is made.
#[derive(Clone, Copy)]
pub enum FlatCapture {
    Variable(VariablePlace),
    Exit(ExitPlace),
    Method(MethodPlace),
}
