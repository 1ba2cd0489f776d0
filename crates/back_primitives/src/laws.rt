// The laws, each as the contract of a function that does nothing.
ghost use Rattle.back_primitives.specs.Applying.{LawOfProcedures, LawOfApplying, LawOfJudgedPrimitives};
ghost use Rattle.back_primitives.specs.Forms.{LawOfPrimitiveForms};

/// A primitive is applied by its procedure.
pub fn law_procedures()
    ensures { LawOfProcedures }
{}

/// A primitive is applied, in line where that is quick.
pub fn law_applying()
    ensures { LawOfApplying }
{}

/// A primitive is judged, where a form branches on what it says.
pub fn law_judged_primitives()
    ensures { LawOfJudgedPrimitives }
{}

/// The form of a primitive does what it means, and is judged.
pub fn law_primitive_forms()
    ensures { LawOfPrimitiveForms }
{}
