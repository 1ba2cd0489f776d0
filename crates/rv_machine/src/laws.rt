// What is true of the runs of every machine, as the contracts of functions that do nothing.

ghost use Rattle.std.specs.Prelude.{◌≡◌, ◌≢◌, ℕ, ◌+◌, ◌*◌, ◌/◌, ◌%◌, ◌<◌, ◌≤◌, ◌^◌, List, ◌++◌, length, Some, slice_get, slice_set, slice_index};
ghost use Rattle.rv_machine.specs.Memory.{bytes_of, number_at, stored_at};
ghost use Rattle.rv_machine.specs.State.{State};
ghost use Rattle.rv_machine.specs.Step.{Result as AnyResult, Step, step_of};
ghost use Rattle.rv_machine.specs.Run.{Moment, run_from};
ghost use Rattle.rv_machine.specs.declared.ending.Ending.TheVariants.{Budget};

use rv_encode::law_read;

/// A word of a memory of words is that word, and a word stored is one word changed.
pub fn law_words()
    ensures length { (words : List ℕ) → length (bytes_of words) ≡ 4 * length words }
    ensures read { (words : List ℕ) (i word : ℕ) → slice_get words i ≡ Some word → word < 2 ^ 32 →
        number_at 4 (4 * i) (bytes_of words) ≡ Some word }
    ensures stored { (words : List ℕ) (i word : ℕ) → i < length words →
        stored_at 4 (4 * i) word (bytes_of words) ≡ Some (bytes_of (slice_set words i word)) }
{}

/// A step of a memory of bytes is one row of the relation, and no other.
pub fn law_step()
    ensures row { (s : State) → ((at : ℕ) → slice_index s.memory at < 256) → Step s (step_of s) }
    ensures only { (s : State) (r : AnyResult) → ((at : ℕ) → slice_index s.memory at < 256) →
        Step s r → r ≡ step_of s }
{
    law_read();
}

/// More instructions change no run that has ended, what was printed stays at the front of what is
/// printed, what is left of the input is a back of what was left, and a run that goes on has executed
/// all of its instructions.
pub fn law_budget()
    ensures ended { (j n : ℕ) (m : Moment) → j ≤ n → (run_from j m).ending ≢ Budget →
        run_from n m ≡ run_from j m }
    ensures printed { (j n : ℕ) (m : Moment) → j ≤ n →
        ((rest : List ℕ) × ((run_from j m).at.printed ++ rest ≡ (run_from n m).at.printed)) }
    ensures input { (j n : ℕ) (m : Moment) → j ≤ n →
        ((front : List ℕ) × ((run_from j m).at.input ≡ front ++ (run_from n m).at.input)) }
    ensures gets { (j n : ℕ) (m : Moment) → j ≤ n →
        (run_from j m).at.gets ≤ (run_from n m).at.gets }
    ensures executed { (j : ℕ) (m : Moment) → (run_from j m).ending ≡ Budget →
        (run_from j m).at.executed ≡ m.executed + j }
{}

/// A run that goes on after so many instructions is the run of the others from where it stands.
pub fn law_split()
    ensures { (j k : ℕ) (m : Moment) → (run_from j m).ending ≡ Budget →
        run_from (j + k) m ≡ run_from k (run_from j m).at }
{}
