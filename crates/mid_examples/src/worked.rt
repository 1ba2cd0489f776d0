// Worked rows: what primitives come to in an arena that is written out, as contracts of functions that do nothing.

ghost use Rattle.mid_examples.specs.Sums.{AddRows, SubtractRows, MultiplyRows};
ghost use Rattle.mid_examples.specs.Quotients.{DivideRows, ModuloRows};
ghost use Rattle.mid_examples.specs.Comparisons.{ComparisonRows};
ghost use Rattle.mid_examples.specs.Predicates.{SameRows, PredicateRows};
ghost use Rattle.mid_examples.specs.Conses.{ConsRows, PartRows, SetPartRows};
ghost use Rattle.mid_examples.specs.Characters.{CharCodeRows, CodeCharRows};
ghost use Rattle.mid_examples.specs.Strings.{MakeStringRows, StringLengthRows, CharAtRows, SetCharAtRows};
ghost use Rattle.mid_examples.specs.Vectors.{MakeVectorRows, VectorLengthRows, VectorRefRows, SetVectorRefRows};
ghost use Rattle.mid_examples.specs.Symbols.{SymbolNameRows, SymbolSerialRows, GensymRows};
ghost use Rattle.mid_examples.specs.Classes.{ClassOfRows, ClassNameRows, IsSubclassRows, IsInstanceRows};
ghost use Rattle.mid_examples.specs.Instances.{AllocateRows, SlotCountRows, SlotPlaceRows, SlotRefRows, SlotSetRows, SlotBoundRows, SlotInitargsRows, SlotInitformRows, ContinuableRows};
ghost use Rattle.mid_examples.specs.Streams.{StreamRows, PutCharRows, IsFreshLineRows, GetByteRows, PeekByteRows};
ghost use Rattle.mid_examples.specs.GroundFacts.{GroundFacts};
ghost use Rattle.mid_examples.specs.Bounds.{BoundRows};

/// Arithmetic.
pub fn worked_numbers()
    ensures add_rows { AddRows }
    ensures subtract_rows { SubtractRows }
    ensures multiply_rows { MultiplyRows }
    ensures divide_rows { DivideRows }
    ensures modulo_rows { ModuloRows }
    ensures comparison_rows { ComparisonRows }
{}

/// What tells values apart.
pub fn worked_predicates()
    ensures same_rows { SameRows }
    ensures predicate_rows { PredicateRows }
{}

/// Conses.
pub fn worked_conses()
    ensures cons_rows { ConsRows }
    ensures part_rows { PartRows }
    ensures set_part_rows { SetPartRows }
{}

/// Characters and strings.
pub fn worked_strings()
    ensures char_code_rows { CharCodeRows }
    ensures code_char_rows { CodeCharRows }
    ensures make_string_rows { MakeStringRows }
    ensures string_length_rows { StringLengthRows }
    ensures char_at_rows { CharAtRows }
    ensures set_char_at_rows { SetCharAtRows }
{}

/// Vectors.
pub fn worked_vectors()
    ensures make_vector_rows { MakeVectorRows }
    ensures vector_length_rows { VectorLengthRows }
    ensures vector_ref_rows { VectorRefRows }
    ensures set_vector_ref_rows { SetVectorRefRows }
{}

/// Symbols.
pub fn worked_symbols()
    ensures symbol_name_rows { SymbolNameRows }
    ensures symbol_serial_rows { SymbolSerialRows }
    ensures gensym_rows { GensymRows }
{}

/// Classes.
pub fn worked_classes()
    ensures class_of_rows { ClassOfRows }
    ensures class_name_rows { ClassNameRows }
    ensures is_subclass_rows { IsSubclassRows }
    ensures is_instance_rows { IsInstanceRows }
{}

/// Instances.
pub fn worked_instances()
    ensures allocate_rows { AllocateRows }
    ensures slot_count_rows { SlotCountRows }
    ensures slot_place_rows { SlotPlaceRows }
    ensures slot_ref_rows { SlotRefRows }
    ensures slot_set_rows { SlotSetRows }
    ensures slot_bound_rows { SlotBoundRows }
    ensures slot_initargs_rows { SlotInitargsRows }
    ensures slot_initform_rows { SlotInitformRows }
    ensures continuable_rows { ContinuableRows }
{}

/// Streams.
pub fn worked_streams()
    ensures stream_rows { StreamRows }
    ensures put_char_rows { PutCharRows }
    ensures is_fresh_line_rows { IsFreshLineRows }
    ensures get_byte_rows { GetByteRows }
    ensures peek_byte_rows { PeekByteRows }
{}

/// The arena in which all run.
pub fn worked_ground()
    ensures ground_facts { GroundFacts }
{}

/// What all primitives take.
pub fn worked_bounds()
    ensures bound_rows { BoundRows }
{}
