// How a core form is made of what was found of its parts.

use crate::tables::{DynamicRow, GlobalRow};
use base::{ItemList, Name, NameList};
use lang_classes::SlotSpecs;
use lang_meaning::{
    CaptureList, ClassIds, Core, ExitVar, GenericId, LiteralId, OverTwo, Primitive, ProcedureId,
    Qualifier, SiteId, Var,
};

/// What was found of a part: its core form, that of a variable's value with the variable, or a
/// parameter.
#[derive(Drop)]
pub enum ElaboratedPart {
    Value(Core),
    Binding(Var, Core),
    Parameter(Var),
}

/// What was found of the parts of a form, in their order.
pub type ElaboratedParts = ItemList<ElaboratedPart>;

/// A form that has no parts.
#[derive(Clone, Copy)]
pub enum Leaf {
    Literal(LiteralId),
    Local(Var),
    Global(Name),
    Dynamic(Name),
    /// A transfer to a segment.
    Go(ExitVar, u32),
    NextMethod,
    HasNext,
    /// No forms.
    Nothing,
}

/// A form with one part.
#[derive(Clone, Copy)]
pub enum One {
    SetVariable(Var),
    SetGlobal(Name),
    DefineGlobal(GlobalRow),
    SetDynamic(Name),
    DefineDynamic(DynamicRow),
    ReturnTo(ExitVar),
}

/// For each clause the length of its body, or none.
pub type BodyLengths = ItemList<Option<usize>>;

/// The lengths of segments.
pub type Lengths = ItemList<usize>;

/// What the method of a slot option does: it reads the slot, writes it, or asks whether it is bound
/// (ISO/IEC 13816:2007, 15.1.2).
#[derive(Clone, Copy)]
pub enum Accessor {
    Reads,
    Writes,
    Asks,
}

/// The qualifier and the classes of a method.
#[derive(Drop)]
pub struct MethodHead {
    pub qualifier: Qualifier,
    pub classes: ClassIds,
}

/// Heads of methods, in their order.
pub type MethodHeads = ItemList<MethodHead>;

/// The generic function that takes methods: a new one, with so many required arguments and with a rest
/// argument or without, or one that is there.
#[derive(Clone, Copy)]
pub enum Taker {
    New(Name, u32, bool),
    There(GenericId),
}

/// What a function of a class definition is for: an initform, or the method of an option under the name of
/// its generic function.
#[derive(Clone, Copy)]
pub enum SlotFunction {
    Initform,
    Method(Name, Accessor),
}

/// Functions of a class definition, in the order in which they are met.
pub type SlotFunctions = ItemList<SlotFunction>;

/// A class definition: its name, its direct superclasses, whether it is abstract, its slots and their functions.
#[derive(Drop)]
pub struct NewClass {
    pub name: Name,
    pub supers: ClassIds,
    pub abstract_class: bool,
    pub slots: SlotSpecs,
    pub functions: SlotFunctions,
}

/// What the definition of a function under a name gives: that function, or a macro whose calls it expands
/// (ISO/IEC 13816:2007, 12.7 and 16).
#[derive(Clone, Copy)]
pub enum DefinedAs {
    Function,
    Macro,
}

/// How a core form is made of what was found of its parts.
#[derive(Drop)]
pub enum Elaboration {
    Ready(Leaf),
    OfOne(One),
    OfTwo(OverTwo),
    /// A part, and a body.
    OfBody(OverTwo),
    /// All parts in order.
    InSequence,
    CallOf(Name),
    CallOfValue,
    /// The call of the function that is the value of a variable.
    CallOfLocal(Var),
    CallOfPrimitive(Primitive),
    /// For each clause a test, and a body of so many forms or none.
    OfClauses(BodyLengths),
    /// Variables with their values, and a body.
    OfVariables,
    /// A value for each of these dynamic variables, and a body.
    OfDynamics(NameList),
    /// So many required variables, a rest variable or none, and a body; these parts are around.
    OfFunction(usize, bool, CaptureList),
    /// A body.
    OfBlock(ExitVar),
    /// Segments of so many forms.
    OfSegments(ExitVar, Lengths),
    /// The function or the macro of that name, with so many required variables, a rest variable or none, and a body.
    /// The definition, of a file or not, stands for that form.
    OfFunctionNamed(DefinedAs, Name, usize, bool, bool, Leaf),
    /// A procedure of a definition, of that name or of none, with so many required variables, a rest variable or
    /// none, and a body.
    OfProcedure(Option<Name>, usize, bool),
    /// The procedure of a slot's method under that name; its variables are that one and, of a writer, the next one, and
    /// the slot's name is that literal.
    OfAccessor(Name, Accessor, Var, LiteralId),
    /// Methods with these heads, whose procedures are numbered from that one on. The definition, of a file or
    /// not, stands for that form.
    OfMethods(Taker, MethodHeads, ProcedureId, bool, Leaf),
    /// A class, with the procedures of its functions numbered from that one on. The definition, of a file or not, stands
    /// for that form.
    OfClass(NewClass, ProcedureId, bool, Leaf),
}

/// How a core form is made, and its site where it has one.
#[derive(Drop)]
pub struct Made {
    pub site: Option<SiteId>,
    pub making: Elaboration,
}
