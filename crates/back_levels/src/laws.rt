// The laws, each as the contract of a function that does nothing.
ghost use Rattle.back_relation.specs.Setting.{Setting};
ghost use Rattle.back_levels.specs.Beginning.{LawOfBeginnings};
ghost use Rattle.back_levels.specs.MainEnds.{LawOfMainEnds};
ghost use Rattle.back_levels.specs.MainSteps.{LawOfMainSteps};
ghost use Rattle.back_levels.specs.Mains.{LawOfMains};
ghost use Rattle.back_levels.specs.Numbers.{LawOfMainNumbers};
ghost use Rattle.back_levels.specs.Surroundings.{LawOfMainSurroundings, LawOfMainForms};
ghost use Rattle.back_levels.specs.StartSteps.{LawOfStartSteps};
ghost use Rattle.back_levels.specs.MainsLeft.{LawOfMainsLeft};
ghost use Rattle.back_levels.specs.Runs.{LawOfRuns, LawOfRunsMeant};
ghost use Rattle.back_levels.specs.Programs.{LawOfPrograms};
ghost use Rattle.back_levels.specs.Levels.{LawOfForms, LawOfRoutines, LawOfLevels, LawOfLowering};
ghost use Rattle.back_levels.specs.Laid.{LawOfRightPrograms, LawOfLaidRuns};

/// What the steps around the form of a main form do.
pub fn law_main_steps()
    ensures { LawOfMainSteps }
{}

/// What is around a main form where the record of the end stands.
pub fn law_main_surroundings()
    ensures { LawOfMainSurroundings }
{}

/// Where the form of a main form begins.
pub fn law_main_forms()
    ensures { LawOfMainForms }
{}

/// The record of the end stands, and the form begins.
pub fn law_beginnings()
    ensures { LawOfBeginnings }
{}

/// What the code of a main form comes to, from what its form comes to.
pub fn law_main_ends()
    ensures { LawOfMainEnds }
{}

/// Which procedures are the main forms, and which is the start.
pub fn law_main_numbers()
    ensures { (setting : Setting) → LawOfMainNumbers setting }
{}

/// Main forms with their entry do what they mean.
pub fn law_mains()
    ensures { LawOfMains }
{}

/// What the steps of the start do, and how large its frame is.
pub fn law_start_steps()
    ensures { (setting : Setting) → LawOfStartSteps setting }
{}

/// The main forms that are left, one after another.
pub fn law_mains_left()
    ensures { LawOfMainsLeft }
{}

/// The run of the code, from what all main forms do.
pub fn law_runs()
    ensures { LawOfRuns }
{}

/// What the run does in words of the meaning of programs, where there are turns enough.
pub fn law_runs_meant()
    ensures { LawOfRunsMeant }
{}

/// Whole programs: their code does what they mean, where all main forms do.
pub fn law_programs()
    ensures { LawOfPrograms }
{}

/// All forms do what they mean at a level, where the routines do there, and all forms at fewer levels.
pub fn law_forms()
    ensures { LawOfForms }
{}

/// All routines do what is claimed of them at a level, where all forms do at fewer levels.
pub fn law_routines()
    ensures { LawOfRoutines }
{}

/// All forms do what they mean, at all levels.
pub fn law_levels()
    ensures { LawOfLevels }
{}

/// The run of the code of a program does what the program means.
pub fn law_lowering()
    ensures { LawOfLowering }
{}

/// A whole program that was made flat, with the words of its own, is laid well.
pub fn law_right_programs()
    ensures { LawOfRightPrograms }
{}

/// The run of its code does what it means.
pub fn law_laid_runs()
    ensures { LawOfLaidRuns }
{}
