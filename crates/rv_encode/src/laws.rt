// What is true of every instruction and every word, as the contracts of functions that do nothing.

ghost use Rattle.std.specs.Prelude.{◌≡◌, ◌<◌, ◌^◌, ℕ, Some};
ghost use Rattle.rv_encode.specs.Encodes.{Encodes};
ghost use Rattle.rv_encode.specs.Decode.{decode_of};
ghost use Rattle.rv_encode.specs.declared.instruction.Instr.{Instr};

/// An instruction is one word, of 32 bits, and a word is at most one instruction.
pub fn law_one_word()
    ensures word { (i : Instr) (w v : ℕ) → Encodes i w → Encodes i v → w ≡ v }
    ensures instr { (i j : Instr) (w : ℕ) → Encodes i w → Encodes j w → i ≡ j }
    ensures fits { (i : Instr) (w : ℕ) → Encodes i w → w < 2 ^ 32 }
{}

/// A word is read as an instruction exactly where it is the word of that instruction.
pub fn law_read()
    ensures read { (i : Instr) (w : ℕ) → Encodes i w → decode_of w ≡ Some i }
    ensures word { (i : Instr) (w : ℕ) → w < 2 ^ 32 → decode_of w ≡ Some i → Encodes i w }
{}
