ghost use Rattle.std.specs.Prelude.{◌≡◌};
ghost use Rattle.ca_check.specs.Words.{Ok, Err, All, Some, map, ProgramView, IsProgram, Scalars, ProgramHasScalars, FormTrees, HaveScalars, UnknownName, Redefined, BadArity, BadForm, RecurNotTail, ParkOutsideGo, BlockOutsideMain, NotPlain, TooMany, expansion_of, block_place, script_go_blocks, IsGoBody};
ghost use Rattle.ca_check.specs.Worked as worked;

/// The program of an accepted script is a checked one: every name in it is bound, once on each path; each
/// `recur` stands in tail position and has its arity; every function, builtin and go body that it names is
/// there and takes so many values; what a system task applies is plain.
pub fn programs_are_checked()
    ensures { (forms : FormTrees) (program : ProgramView) → expansion_of forms ≡ Ok program → IsProgram program }
{}

/// A go body takes exactly the names that it uses from outside, in order of first use, and its result port.
pub fn captures_are_the_names_used()
    ensures { (forms : FormTrees) (program : ProgramView) → expansion_of forms ≡ Ok program → All IsGoBody program.bodies }
{}

/// Each integer and each keyword in an accepted script's program is as said, where each in its forms is: integers of 64
/// bits, and keywords that a script can write.
pub fn programs_keep_their_scalars()
    ensures { (scalars : Scalars) (forms : FormTrees) (program : ProgramView) → HaveScalars scalars forms → expansion_of forms ≡ Ok program → ProgramHasScalars scalars program }
{}

/// Go bodies are numbered in order of the text: one for each go block, an outer one before those within it.
pub fn go_bodies_are_in_order_of_text()
    ensures { (forms : FormTrees) (program : ProgramView) → expansion_of forms ≡ Ok program → map block_place program.bodies ≡ map Some (script_go_blocks forms) }
{}

/// Scripts whose expansion can be read beside the table of forms. The first ones are refused.
pub fn worked_expansions()
    ensures unknown_name { expansion_of worked.unknown_name ≡ Err (UnknownName, worked.place_at_column 10) }
    ensures wrong_first_part { expansion_of worked.wrong_first_part ≡ Err (BadArity, worked.place_at_column 5) }
    ensures wrong_form_with_wrong_part { expansion_of worked.wrong_form_with_wrong_part ≡ Err (BadForm, worked.place_at_column 1) }
    ensures recur_before_another { expansion_of worked.recur_before_another ≡ Err (RecurNotTail, worked.place_at_column 14) }
    ensures take_outside_go { expansion_of worked.take_outside_go ≡ Err (ParkOutsideGo, worked.place_at_column 1) }
    ensures blocking_take_in_go { expansion_of worked.blocking_take_in_go ≡ Err (BlockOutsideMain, worked.place_at_column 5) }
    ensures no_argument { expansion_of worked.no_argument ≡ Err (BadArity, worked.place_at_column 1) }
    ensures builtin_defined { expansion_of worked.builtin_defined ≡ Err (Redefined, worked.place_at_column 1) }
    ensures definition_inside { expansion_of worked.definition_inside ≡ Err (BadForm, worked.place_at_column 5) }
    ensures operation_given { expansion_of worked.operation_given ≡ Err (NotPlain, worked.place_at_column 8) }
    ensures unknown_source_and_function { expansion_of worked.unknown_source_and_function ≡ Err (UnknownName, worked.place_at_column 6) }
    ensures seventeen_parameters { expansion_of worked.seventeen_parameters ≡ Err (TooMany, worked.place_at_column 1) }
    ensures hidden_parameter { expansion_of worked.hidden_parameter ≡ Ok worked.hidden_parameter_program }
    ensures recur_to_function { expansion_of worked.recur_to_function ≡ Ok worked.recur_to_function_program }
    ensures captures { expansion_of worked.captures ≡ Ok worked.captures_program }
    ensures go_blocks { expansion_of worked.nested_go_blocks ≡ Ok worked.go_blocks_program }
    ensures conjunction { expansion_of worked.conjunction ≡ Ok worked.conjunction_program }
    ensures pattern { expansion_of worked.worked_pattern ≡ Ok worked.pattern_program }
    ensures loop_over_pattern { expansion_of worked.loop_over_pattern ≡ Ok worked.loop_over_pattern_program }
    ensures counted_loop { expansion_of worked.counted_loop ≡ Ok worked.counted_loop_program }
    ensures choice_with_options { expansion_of worked.choice_with_options ≡ Ok worked.choice_with_options_program }
    ensures subscription { expansion_of worked.subscription ≡ Ok worked.subscription_program }
    ensures pipeline_by_keyword { expansion_of worked.pipeline_by_keyword ≡ Ok worked.pipeline_by_keyword_program }
{}
