// The laws, each as the contract of a function that does nothing.
ghost use Rattle.back_values.specs.Arguments.{LawOfArguments, LawOfJudgedArguments, LawOfArgumentLists};
ghost use Rattle.back_relation.specs.Setting.{Setting};
ghost use Rattle.back_values.specs.Bindings.{LawOfBindings};
ghost use Rattle.back_values.specs.Boxes.{LawOfBoxes};
ghost use Rattle.back_values.specs.Variables.{LawOfVariables, LawOfSetting};
ghost use Rattle.back_values.specs.Globals.{LawOfGlobals, LawOfSettingGlobals, LawOfDefinitions};
ghost use Rattle.back_values.specs.Functions.{LawOfFunctions};
ghost use Rattle.back_values.specs.Chains.{LawOfConstants, LawOfPrimaries};
ghost use Rattle.std.specs.Prelude.{ℕ};
ghost use Rattle.back_values.specs.Methods.{LawOfMethodPlaces, LawOfNextMethods, LawOfWholeNextMethods};
ghost use Rattle.back_values.specs.Sites.{LawOfSites, LawOfWholeLiterals};
ghost use Rattle.back_values.specs.Wholes.{PointsKnown, LawOfWholeVariables, LawOfWholeSetting, LawOfWholeBindings, LawOfWholeFunctions, LawOfWholeGlobals, LawOfWholeSettingGlobals, LawOfWholeDefinitions, LawOfWholeJudging, LawOfJudgedForms};

/// Forms whose values come in registers one after another, and what goes on with the words.
pub fn law_arguments()
    ensures { LawOfArguments }
{}

/// The same where what goes on is judged.
pub fn law_judged_arguments()
    ensures { LawOfJudgedArguments }
{}

/// The forms of a list fit where their code does.
pub fn law_argument_lists()
    ensures { LawOfArgumentLists }
{}

/// Variables are read.
pub fn law_variables()
    ensures { LawOfVariables }
{}

/// Variables are set.
pub fn law_setting()
    ensures { LawOfSetting }
{}

/// New variables get boxes.
pub fn law_boxes()
    ensures { (setting : Setting) → LawOfBoxes setting }
{}

/// Bindings of `let`.
pub fn law_bindings()
    ensures { LawOfBindings }
{}

/// Global variables are read.
pub fn law_globals()
    ensures { LawOfGlobals }
{}

/// Global variables are set.
pub fn law_setting_globals()
    ensures { LawOfSettingGlobals }
{}

/// Global variables are defined.
pub fn law_definitions()
    ensures { LawOfDefinitions }
{}

/// A function is made, with what it captures.
pub fn law_functions()
    ensures { LawOfFunctions }
{}

/// Constants are there.
pub fn law_constants()
    ensures { LawOfConstants }
{}

/// The first primary method of a chain is found, whatever methods run before and after it.
pub fn law_primaries()
    ensures { LawOfPrimaries }
{}

/// Variables are read.
pub fn law_whole_variables()
    ensures { (setting : Setting) (k turns : ℕ) → LawOfWholeVariables setting k turns }
{}

/// Variables are set.
pub fn law_whole_setting()
    ensures { (setting : Setting) (k turns : ℕ) → LawOfWholeSetting setting k turns }
{}

/// Bindings of `let`.
pub fn law_whole_bindings()
    ensures { (setting : Setting) (k turns : ℕ) → LawOfWholeBindings setting k turns }
{}

/// Functions that forms make.
pub fn law_whole_functions()
    ensures { (setting : Setting) (k turns : ℕ) → LawOfWholeFunctions setting k turns }
{}

/// Global variables are read.
pub fn law_whole_globals()
    ensures { (setting : Setting) (k turns : ℕ) → LawOfWholeGlobals setting k turns }
{}

/// Global variables are set.
pub fn law_whole_setting_globals()
    ensures { (setting : Setting) (k turns : ℕ) → LawOfWholeSettingGlobals setting k turns }
{}

/// Global variables are defined.
pub fn law_whole_definitions()
    ensures { (setting : Setting) (k turns : ℕ) → LawOfWholeDefinitions setting k turns }
{}

/// Forms that are judged by their value.
pub fn law_whole_judging()
    ensures { (setting : Setting) (k turns : ℕ) → LawOfWholeJudging setting k turns }
{}

/// Forms with a site.
pub fn law_sites()
    ensures { (setting : Setting) (k turns : ℕ) → LawOfSites setting k turns }
{}

/// All literals.
pub fn law_whole_literals()
    ensures { (setting : Setting) (k turns : ℕ) → LawOfWholeLiterals setting k turns }
{}

/// The call of a method in registers.
pub fn law_method_places()
    ensures { LawOfMethodPlaces }
{}

/// Whether a method is left.
pub fn law_next_methods()
    ensures { LawOfNextMethods }
{}

/// Whether a method is left, wherever the form stands.
pub fn law_whole_next_methods()
    ensures { LawOfWholeNextMethods }
{}

/// All forms that are judged by their values.
pub fn law_judged_forms()
    ensures { (setting : Setting) (k turns : ℕ) → LawOfJudgedForms setting k turns }
{}

/// All points are known.
pub fn law_points_known()
    ensures { (setting : Setting) → PointsKnown setting }
{}
