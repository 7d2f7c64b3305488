// The laws of answers, and worked examples: each is the contract of a function without arguments, whose body is empty or
// names the laws on which it stands.

ghost use Rattle.std.specs.Prelude.{◌≡◌, ◌^◌, ◌-◌, ◌++◌, ℕ, true, false, [], ◌∷◌, List, None, Some, Ok, Err, Result, codes, map, replicate};
ghost use Rattle.outside.specs.Faults.{Rose};
ghost use Rattle.outside.specs.declared.fault.SinkFault.{SinkFault};
ghost use Rattle.outside.specs.declared.fault.SinkFault.TheVariants.{Failed};
ghost use Rattle.tptp_tree.specs.Printing.{formula_text};
ghost use Rattle.tptp_tree.specs.Shape.{formula_of};
ghost use Rattle.tptp_tree.specs.declared.role.Role.TheVariants.{Axiom, Conjecture, NegatedConjecture};
ghost use Rattle.clausal_form.specs.declared.fault.FormCause.TheVariants.{Expansion, TooHeavy, TotalLimit};
ghost use Rattle.tptp_reader.specs.declared.cause.Form.TheVariants.{Typed, RoleForm, Number, Distinct, Dollar};
ghost use Rattle.tptp_reader.specs.declared.cause.ReadCause.TheVariants as read;
ghost use Rattle.tstp_checker.specs.declared.cause.Cause.TheVariants as line;
ghost use Rattle.literal_selection.specs.declared.choice.Selection.TheVariants.{Negative, Nothing};
ghost use Rattle.command_words.specs.Words.{command_of, prove, check, bench, model, list_ground, decide, usage_text};
ghost use Rattle.command_reports.specs.Names.{shown, problem_name};
ghost use Rattle.signature.specs.Examples.{clause, fof_axiom};
ghost use Rattle.signature.specs.Form.{clausal_form};
ghost use Rattle.laws_meaning.specs.Meaning.{has_conjecture};
ghost use Rattle.finite_models.specs.Model.{FormsAreOverSignatures};
ghost use Rattle.finite_models.specs.declared.finding.TheConstants.{MOST_MEASURE};
ghost use Rattle.fol_base.specs.declared.limits.TheConstants.{MOST_BOUND_SYMBOLS};
ghost use Rattle.herbrand_list.specs.declared.fault.TheConstants.{MOST_WEIGHT};
ghost use Rattle.tptp_problem.specs.declared.limits.TheConstants.{MOST_INCLUDES, MOST_PROBLEM_BYTES};
ghost use Rattle.tptp_token.specs.declared.limits.TheConstants.{MOST_TEXT_BYTES};
ghost use Rattle.tptp_tree.specs.declared.limits.TheConstants.{MOST_DERIVATION_NESTING, MOST_NESTING};
ghost use Rattle.laws_meaning.specs.Examples.{hiding_alone, every_p, some_p, contradiction, proving};
ghost use Rattle.command_reports.specs.Meaning.{FormMeans, IsTheorem};
ghost use Rattle.command_reports.specs.Reports.{read_status, read_status_word, unread_report, unformed_report, lost_report, memory_out_report, usage_report, read_word, form_word, limit_word};
ghost use Rattle.command_reports.specs.ProveReports.{refuted_report, saturated_report, part_saturated_report, spent_report, heavy_report};
ghost use Rattle.command_reports.specs.CheckReports.{accepted_line, refused_line, cause_word};
ghost use Rattle.command_reports.specs.ModelReports.{found_report, no_model_report, too_large_report};
ghost use Rattle.commands.specs.BenchProblem.{bench_formulas};
ghost use Rattle.command_reports.specs.BenchReports.{bench_summary};
ghost use Rattle.command_reports.specs.GroundReports.{listed_report, names_report, large_report};
ghost use Rattle.command_reports.specs.DecideReports.{ground_form, open_clause, open_report, no_interpretation_report, interpretation_report};
ghost use Rattle.command_reports.specs.Outside.{IsTold};
ghost use Rattle.commands.specs.Laws.{is_exact, ChecksHaveOneReport, FaultsAreTheOnlyReport, FormedIsValid, ReadProblemsAreClosed, ReadProblemsArePrintable, AcceptedTextsHaveLines, AcceptedLinesAreOne};
ghost use Rattle.commands.specs.Examples.{all_axioms, counting, counting_selected, formula_in, ground_axioms, hiding_with, holding_nothing, taking, proving_row, AreWritesBy, DeliversInPiecesBy};
ghost use Rattle.commands.specs.Rows.{UsageRow, TheoremRow, ReadFaultRow, LoadFaultRow, LostOutputRow, MemoryOutRow};
ghost use Rattle.command_reports.specs.Parts.{NothingLeftOutIsWhole};
ghost use Rattle.commands.specs.ProveRows.{SaturatedRow, PartSaturatedRow, GaveUpRow};
ghost use Rattle.commands.specs.CheckRows.{CheckedRow};
ghost use Rattle.commands.specs.ModelRows.{ModelRow};
ghost use Rattle.commands.specs.GroundRows.{GroundRow};
ghost use Rattle.commands.specs.DecideRows.{DecideRow};
ghost use Rattle.commands.specs.Run.{IsDue};
ghost use Rattle.command_reports.specs.declared.status.TheConstants.{PROVED, SATURATED, GAVE_UP, INPUT_ERROR, LOAD_FAILED, SINK_FAILED, USAGE_SHOWN, MEMORY_OUT, INAPPROPRIATE, REFUSED, PART_SATURATED, MODEL_FOUND, NO_MODEL, LISTED, UNLISTED, FORM_REFUTED, FORM_TRUE};

use clausal_form::laws::texts_have_one_answer;

/// Where the library tells what it holds and no load failed, these bytes decide what `check` reports, and which fault of the input
/// each command reports.
pub fn one_answer()
    ensures of_check { ChecksHaveOneReport }
    ensures of_faults { FaultsAreTheOnlyReport }
{
    texts_have_one_answer();
}

/// No formula of a problem that is read has a free variable, and each can be printed, with at most twice the levels that a text may have.
pub fn read_problems_are_admissible()
    ensures closed { ReadProblemsAreClosed }
    ensures printable { ReadProblemsArePrintable }
{}

/// The formulas of a problem within the limits show that nothing is wrong with it: completeness speaks of such problems.
pub fn formed_problems_are_valid()
    ensures { FormedIsValid }
{}

/// The lines of an accepted derivation are one list, as long as is told: what `ground` answers on lines it answers on texts.
pub fn accepted_texts_have_lines()
    ensures some { AcceptedTextsHaveLines }
    ensures one { AcceptedLinesAreOne }
{}

/// Where an axiom selection leaves nothing out, a proof begins with the whole clausal form.
pub fn nothing_left_out_is_whole()
    ensures { NothingLeftOutIsWhole }
{}

/// Finite models can be sought of the clausal form of each problem: its symbols are in its signature, each with its kind and its number of
/// arguments.
pub fn forms_are_over_signatures()
    ensures { FormsAreOverSignatures }
{}

/// Words that are a command: options stand in any place after it.
pub fn command_examples()
    ensures plain { command_of (codes "prove" ∷ codes "a" ∷ []) ≡ Some (prove (codes "a") None (counting 100000) 1) }
    ensures root { command_of (codes "prove" ∷ codes "--tptp=D" ∷ codes "a" ∷ []) ≡ Some (prove (codes "a") (Some (codes "D")) (counting 100000) 1) }
    ensures least { command_of (codes "prove" ∷ codes "a" ∷ codes "--inferences=1" ∷ []) ≡ Some (prove (codes "a") None (counting 1) 1) }
    ensures most { command_of (codes "prove" ∷ codes "--inferences=1000000" ∷ codes "--tptp=D" ∷ codes "a" ∷ [])
        ≡ Some (prove (codes "a") (Some (codes "D")) (counting 1000000) 1) }
    ensures negative { command_of (codes "prove" ∷ codes "a" ∷ codes "--select=negative" ∷ []) ≡ Some (prove (codes "a") None (counting 100000) 1) }
    ensures nothing { command_of (codes "prove" ∷ codes "--select=none" ∷ codes "a" ∷ codes "--inferences=5" ∷ [])
        ≡ Some (prove (codes "a") None (all_axioms (record { select = Nothing; split = true; inferences = 5 })) 1) }
    ensures split { command_of (codes "prove" ∷ codes "a" ∷ codes "--split=on" ∷ []) ≡ Some (prove (codes "a") None (counting 100000) 1) }
    ensures whole { command_of (codes "prove" ∷ codes "--split=off" ∷ codes "a" ∷ [])
        ≡ Some (prove (codes "a") None (all_axioms (record { select = Negative; split = false; inferences = 100000 })) 1) }
    ensures least_selection { command_of (codes "prove" ∷ codes "--tolerance=100" ∷ codes "a" ∷ codes "--depth=1" ∷ [])
        ≡ Some (prove (codes "a") None (counting_selected 100000 100 1) 1) }
    ensures most_selection { command_of (codes "prove" ∷ codes "a" ∷ codes "--depth=50" ∷ codes "--tolerance=1000" ∷ codes "--inferences=5" ∷ [])
        ≡ Some (prove (codes "a") None (counting_selected 5 1000 50) 1) }
    ensures one { command_of (codes "prove" ∷ codes "--workers=1" ∷ codes "a" ∷ []) ≡ Some (prove (codes "a") None (counting 100000) 1) }
    ensures team { command_of (codes "prove" ∷ codes "a" ∷ codes "--inferences=5" ∷ codes "--workers=16" ∷ [])
        ≡ Some (prove (codes "a") None (counting 5) 16) }
    ensures checked { command_of (codes "check" ∷ codes "a" ∷ codes "d" ∷ []) ≡ Some (check (codes "a") (codes "d") None) }
    ensures checked_with_root { command_of (codes "check" ∷ codes "a" ∷ codes "d" ∷ codes "--tptp=D" ∷ [])
        ≡ Some (check (codes "a") (codes "d") (Some (codes "D"))) }
    ensures least_bench { command_of (codes "bench" ∷ codes "1" ∷ []) ≡ Some (bench 1) }
    ensures most_bench { command_of (codes "bench" ∷ codes "2000" ∷ []) ≡ Some (bench 2000) }
    ensures modelled { command_of (codes "model" ∷ codes "a" ∷ []) ≡ Some (model (codes "a") None 4) }
    ensures listed { command_of (codes "ground" ∷ codes "a" ∷ codes "d" ∷ []) ≡ Some (list_ground (codes "a") (codes "d") None) }
    ensures listed_with_root { command_of (codes "ground" ∷ codes "--tptp=D" ∷ codes "a" ∷ codes "d" ∷ [])
        ≡ Some (list_ground (codes "a") (codes "d") (Some (codes "D"))) }
    ensures decided { command_of (codes "decide" ∷ codes "a" ∷ []) ≡ Some (decide (codes "a") None) }
    ensures decided_with_root { command_of (codes "decide" ∷ codes "a" ∷ codes "--tptp=D" ∷ []) ≡ Some (decide (codes "a") (Some (codes "D"))) }
    ensures modelled_to { command_of (codes "model" ∷ codes "--size=8" ∷ codes "a" ∷ codes "--tptp=D" ∷ []) ≡ Some (model (codes "a") (Some (codes "D")) 8) }
{}

/// Words that are usage: another command; a number of files that isn't the command's, or one that is empty; an option that isn't
/// the command's, stands twice, has no value, has no number within its limits in plain digits, names no mode, is neither
/// `on` nor `off`, or is a tolerance or a depth that stands alone; and a problem's number that isn't from 1 to 2000.
pub fn usage_examples()
    ensures none { command_of [] ≡ None }
    ensures other { command_of (codes "refute" ∷ codes "a" ∷ []) ≡ None }
    ensures no_file { command_of (codes "prove" ∷ []) ≡ None }
    ensures two_files { command_of (codes "prove" ∷ codes "a" ∷ codes "b" ∷ []) ≡ None }
    ensures empty_file { command_of (codes "prove" ∷ [] ∷ []) ≡ None }
    ensures no_derivation { command_of (codes "check" ∷ codes "a" ∷ []) ≡ None }
    ensures no_problem { command_of (codes "check" ∷ [] ∷ codes "d" ∷ []) ≡ None }
    ensures empty_derivation { command_of (codes "check" ∷ codes "a" ∷ [] ∷ []) ≡ None }
    ensures three_files { command_of (codes "check" ∷ codes "a" ∷ codes "d" ∷ codes "e" ∷ []) ≡ None }
    ensures check_counts { command_of (codes "check" ∷ codes "a" ∷ codes "d" ∷ codes "--inferences=5" ∷ []) ≡ None }
    ensures no_root { command_of (codes "prove" ∷ codes "a" ∷ codes "--tptp=" ∷ []) ≡ None }
    ensures no_number { command_of (codes "prove" ∷ codes "a" ∷ codes "--inferences=" ∷ []) ≡ None }
    ensures dash { command_of (codes "prove" ∷ codes "a" ∷ codes "-" ∷ []) ≡ None }
    ensures unknown { command_of (codes "prove" ∷ codes "a" ∷ codes "--threads=2" ∷ []) ≡ None }
    ensures twice { command_of (codes "prove" ∷ codes "--inferences=1" ∷ codes "a" ∷ codes "--inferences=1" ∷ []) ≡ None }
    ensures two_roots { command_of (codes "prove" ∷ codes "--tptp=D" ∷ codes "a" ∷ codes "--tptp=E" ∷ []) ≡ None }
    ensures two_modes { command_of (codes "prove" ∷ codes "a" ∷ codes "--select=none" ∷ codes "--select=none" ∷ []) ≡ None }
    ensures no_mode { command_of (codes "prove" ∷ codes "a" ∷ codes "--select=" ∷ []) ≡ None }
    ensures other_mode { command_of (codes "prove" ∷ codes "a" ∷ codes "--select=positive" ∷ []) ≡ None }
    ensures two_splits { command_of (codes "prove" ∷ codes "a" ∷ codes "--split=on" ∷ codes "--split=off" ∷ []) ≡ None }
    ensures no_split { command_of (codes "prove" ∷ codes "a" ∷ codes "--split" ∷ []) ≡ None }
    ensures other_split { command_of (codes "prove" ∷ codes "a" ∷ codes "--split=yes" ∷ []) ≡ None }
    ensures check_selects { command_of (codes "check" ∷ codes "a" ∷ codes "d" ∷ codes "--select=none" ∷ []) ≡ None }
    ensures tolerance_alone { command_of (codes "prove" ∷ codes "a" ∷ codes "--tolerance=100" ∷ []) ≡ None }
    ensures depth_alone { command_of (codes "prove" ∷ codes "--depth=1" ∷ codes "a" ∷ []) ≡ None }
    ensures two_tolerances { command_of
        (codes "prove" ∷ codes "a" ∷ codes "--tolerance=100" ∷ codes "--depth=1" ∷ codes "--tolerance=100" ∷ []) ≡ None }
    ensures two_depths { command_of (codes "prove" ∷ codes "a" ∷ codes "--depth=1" ∷ codes "--depth=1" ∷ codes "--tolerance=100" ∷ []) ≡ None }
    ensures low_tolerance { command_of (codes "prove" ∷ codes "a" ∷ codes "--tolerance=99" ∷ codes "--depth=1" ∷ []) ≡ None }
    ensures high_tolerance { command_of (codes "prove" ∷ codes "a" ∷ codes "--tolerance=1001" ∷ codes "--depth=1" ∷ []) ≡ None }
    ensures no_depth { command_of (codes "prove" ∷ codes "a" ∷ codes "--tolerance=100" ∷ codes "--depth=0" ∷ []) ≡ None }
    ensures too_deep { command_of (codes "prove" ∷ codes "a" ∷ codes "--tolerance=100" ∷ codes "--depth=51" ∷ []) ≡ None }
    ensures check_has_no_axioms { command_of (codes "check" ∷ codes "a" ∷ codes "d" ∷ codes "--tolerance=100" ∷ codes "--depth=1" ∷ []) ≡ None }
    ensures no_inferences { command_of (codes "prove" ∷ codes "a" ∷ codes "--inferences=0" ∷ []) ≡ None }
    ensures too_many { command_of (codes "prove" ∷ codes "a" ∷ codes "--inferences=1000001" ∷ []) ≡ None }
    ensures leading_zero { command_of (codes "prove" ∷ codes "a" ∷ codes "--inferences=01" ∷ []) ≡ None }
    ensures no_size { command_of (codes "model" ∷ codes "a" ∷ codes "--size=0" ∷ []) ≡ None }
    ensures too_large { command_of (codes "model" ∷ codes "a" ∷ codes "--size=9" ∷ []) ≡ None }
    ensures two_sizes { command_of (codes "model" ∷ codes "a" ∷ codes "--size=2" ∷ codes "--size=2" ∷ []) ≡ None }
    ensures prove_sizes { command_of (codes "prove" ∷ codes "a" ∷ codes "--size=2" ∷ []) ≡ None }
    ensures model_counts { command_of (codes "model" ∷ codes "a" ∷ codes "--inferences=5" ∷ []) ≡ None }
    ensures two_problems { command_of (codes "model" ∷ codes "a" ∷ codes "b" ∷ []) ≡ None }
    ensures ground_of_no_derivation { command_of (codes "ground" ∷ codes "a" ∷ []) ≡ None }
    ensures ground_sizes { command_of (codes "ground" ∷ codes "a" ∷ codes "d" ∷ codes "--size=2" ∷ []) ≡ None }
    ensures decide_of_none { command_of (codes "decide" ∷ []) ≡ None }
    ensures decide_of_two { command_of (codes "decide" ∷ codes "a" ∷ codes "d" ∷ []) ≡ None }
    ensures no_bench { command_of (codes "bench" ∷ []) ≡ None }
    ensures bench_of_none { command_of (codes "bench" ∷ codes "0" ∷ []) ≡ None }
    ensures bench_of_too_many { command_of (codes "bench" ∷ codes "2001" ∷ []) ≡ None }
    ensures bench_of_a_file { command_of (codes "bench" ∷ codes "a" ∷ []) ≡ None }
    ensures two_benches { command_of (codes "bench" ∷ codes "1" ∷ codes "2" ∷ []) ≡ None }
    ensures bench_counts { command_of (codes "bench" ∷ codes "1" ∷ codes "--inferences=5" ∷ []) ≡ None }
    ensures sign { command_of (codes "prove" ∷ codes "a" ∷ codes "--inferences=+1" ∷ []) ≡ None }
    ensures letter { command_of (codes "prove" ∷ codes "a" ∷ codes "--inferences=1x" ∷ []) ≡ None }
    ensures two_teams { command_of (codes "prove" ∷ codes "a" ∷ codes "--workers=2" ∷ codes "--workers=2" ∷ []) ≡ None }
    ensures no_workers { command_of (codes "prove" ∷ codes "a" ∷ codes "--workers=0" ∷ []) ≡ None }
    ensures too_many_workers { command_of (codes "prove" ∷ codes "a" ∷ codes "--workers=17" ∷ []) ≡ None }
    ensures check_alone { command_of (codes "check" ∷ codes "a" ∷ codes "d" ∷ codes "--workers=2" ∷ []) ≡ None }
{}

/// The usage text has a line for each command of the table, with its files and its options.
pub fn usage_text_follows_the_tables()
    ensures { usage_report ≡ usage_text }
{}

/// The names that reports show: what stands after the file's last slash, without a final `.p`; bytes outside 32 to 126 as
/// question marks.
pub fn name_examples()
    ensures in_folders { problem_name (codes "dir/sub/r1.p") ≡ codes "r1" }
    ensures plain { problem_name (codes "r1") ≡ codes "r1" }
    ensures other_end { problem_name (codes "a.ax") ≡ codes "a.ax" }
    ensures letter { problem_name (codes "p") ≡ codes "p" }
    ensures twice { problem_name (codes "x.p.p") ≡ codes "x.p" }
    ensures folder { problem_name (codes "a.p/b") ≡ codes "b" }
    ensures nothing { problem_name (codes "dir/.p") ≡ [] }
    ensures bytes { shown (31 ∷ 32 ∷ 126 ∷ 127 ∷ []) ≡ 63 ∷ 32 ∷ 126 ∷ 63 ∷ [] }
{}

/// The words for causes, in the order of their tables.
pub fn word_examples()
    ensures of_reading { map read_word
        (read.BadByte ∷ read.Unclosed ∷ read.Syntax ∷ read.FreeVariable ∷ read.Role ∷ read.SecondConjecture ∷ read.SelectionMissing
        ∷ read.IncludeDepth ∷ read.TooLong ∷ read.Nesting ∷ read.Load ∷ [])
        ≡ codes "BadByte" ∷ codes "Unclosed" ∷ codes "Syntax" ∷ codes "FreeVariable" ∷ codes "Role" ∷ codes "SecondConjecture"
        ∷ codes "SelectionMissing" ∷ codes "IncludeDepth" ∷ codes "TooLong" ∷ codes "Nesting" ∷ codes "Load" ∷ [] }
    ensures of_statuses { map read_status_word
        (read.BadByte ∷ read.Unclosed ∷ read.Syntax ∷ read.FreeVariable ∷ read.Role ∷ read.SecondConjecture ∷ read.SelectionMissing
        ∷ read.IncludeDepth ∷ read.TooLong ∷ read.Nesting ∷ read.Load ∷ [])
        ≡ replicate 10 (codes "InputError") ++ codes "OSError" ∷ [] }
    ensures of_forms_left_out { map (λ form. read_status_word (read.Inappropriate form)) (Typed ∷ RoleForm ∷ Number ∷ Distinct ∷ Dollar ∷ [])
        ≡ replicate 5 (codes "Inappropriate") }
    ensures of_forms { map form_word (Typed ∷ RoleForm ∷ Number ∷ Distinct ∷ Dollar ∷ [])
        ≡ codes "Typed" ∷ codes "RoleForm" ∷ codes "Number" ∷ codes "Distinct" ∷ codes "Dollar" ∷ [] }
    ensures of_limits { map limit_word (Expansion ∷ TooHeavy ∷ TotalLimit ∷ [])
        ≡ codes "Expansion" ∷ codes "TooHeavy" ∷ codes "TotalLimit" ∷ [] }
    ensures of_lines { map cause_word
        (line.Text ∷ line.Order ∷ line.UnknownParent ∷ line.Leaf ∷ line.Clausify ∷ line.Binding ∷ line.Rule ∷ line.Conclusion
        ∷ line.NewSymbol ∷ line.NoEmptyClause ∷ [])
        ≡ codes "Text" ∷ codes "Order" ∷ codes "UnknownParent" ∷ codes "Leaf" ∷ codes "Clausify" ∷ codes "Binding" ∷ codes "Rule"
        ∷ codes "Conclusion" ∷ codes "NewSymbol" ∷ codes "NoEmptyClause" ∷ [] }
{}

/// The texts of reports.
pub fn report_examples()
    ensures theorem { refuted_report (codes "dir/r5.p") true (codes "cnf(c0,axiom,p).\n")
        ≡ codes "% SZS status Theorem for r5\n% SZS output start CNFRefutation for r5\ncnf(c0,axiom,p).\n% SZS output end CNFRefutation for r5\n" }
    ensures unsatisfiable { refuted_report (codes "r1.p") false (codes "cnf(c0,axiom,p).\n")
        ≡ codes "% SZS status Unsatisfiable for r1\n% SZS output start CNFRefutation for r1\ncnf(c0,axiom,p).\n% SZS output end CNFRefutation for r1\n" }
    ensures accepted { accepted_line 11 ≡ codes "% accepted 11 lines\n" }
    ensures spent { spent_report (codes "r15.p") 12 10 ≡ codes "% SZS status GaveUp for r15\n% spent 12 of 10\n" }
    ensures syntax { unread_report (codes "r13.p") read.Syntax (codes "r13.p") 18
        ≡ codes "% SZS status InputError for r13\n% Syntax at r13.p:18\n" }
    ensures too_heavy { unformed_report (codes "h.p") TooHeavy (codes "it's")
        ≡ codes "% SZS status InputError for h\n% TooHeavy in 'it\\'s'\n" }
    ensures heavy { heavy_report (codes "r16.p") (codes "refl(3,0)") ≡ codes "% SZS status GaveUp for r16\n% heavy refl(3,0)\n" }
    ensures problem_lost { unread_report (codes "none.p") read.Load (codes "none.p") 0
        ≡ codes "% SZS status OSError for none\n% Load none.p\n" }
    ensures derivation_lost { lost_report (codes "r1.p") (codes "d") ≡ codes "% SZS status OSError for r1\n% Load d\n" }
    ensures memory_out { memory_out_report (codes "dir/r1.p") ≡ codes "% SZS status MemoryOut for r1\n" }
    ensures lost_under_a_name_of_other_bytes { lost_report (codes "r1.p") (7 ∷ codes "d")
        ≡ codes "% SZS status OSError for r1\n% Load ?d\n" }
    ensures typed { unread_report (codes "r21.p") (read.Inappropriate Typed) (codes "r21.p") 0
        ≡ codes "% SZS status Inappropriate for r21\n% Typed at r21.p:0\n" }
    ensures refused { refused_line 8 line.Rule ≡ codes "% refused at line 8: Rule\n" }
    ensures counter_satisfiable { saturated_report (codes "dir/q.p") true (codes "cnf(s0,plain,p(X0)).\n")
        ≡ codes "% SZS status CounterSatisfiable for q\n% SZS output start Saturation for q\ncnf(s0,plain,p(X0)).\n% SZS output end Saturation for q\n" }
    ensures unknown { part_saturated_report (codes "dir/g17.p") 2 3 (codes "cnf(s0,plain,~p(b)).\n")
        ≡ codes "% SZS status Unknown for g17\n% left out 2 of 3\n% SZS output start Saturation for g17\ncnf(s0,plain,~p(b)).\n% SZS output end Saturation for g17\n" }
    ensures satisfiable { saturated_report (codes "r2.p") false []
        ≡ codes "% SZS status Satisfiable for r2\n% SZS output start Saturation for r2\n% SZS output end Saturation for r2\n" }
    ensures model { found_report (codes "r4.p") false (codes "% size 1\n% p(0) = 1\n")
        ≡ codes "% SZS status Satisfiable for r4\n% SZS output start FiniteModel for r4\n% size 1\n% p(0) = 1\n% SZS output end FiniteModel for r4\n" }
    ensures empty_list { listed_report [] [] ≡ codes "% ground instances 0\n" }
    ensures names { names_report 7 ≡ codes "% refused at line 7: Names\n" }
    ensures large { large_report ≡ codes "% refused: Large\n" }
    ensures not_ground { open_report (codes "r5.p") (codes "a") ≡ codes "% SZS status InputError for r5\n% NotGround in a\n" }
    ensures form_refuted { no_interpretation_report ≡ codes "% ground form refuted\n" }
    ensures form_true { interpretation_report ≡ codes "% ground form has a model\n" }
    ensures bench { bench_summary 50 (codes "Theorem") 103 254 ≡ codes "% bench 50 status Theorem\n% counted 103 lines 254\n" }
    ensures no_model { no_model_report (codes "m18.p") 1 ≡ codes "% SZS status GaveUp for m18\n% no model of size 1 to 1\n" }
    ensures too_large { too_large_report (codes "m18.p") 2 ≡ codes "% SZS status GaveUp for m18\n% too large at size 2\n" }
{}

/// A form without variables as a list, and the first clause with one.
pub fn ground_examples()
    ensures listed { listed_report (clausal_form ground_axioms).symbols (ground_form ground_axioms)
        ≡ codes "% ground instances 2\ncnf(g0,axiom,p(a)).\ncnf(g1,axiom,~q(a)).\n" }
    ensures closed { open_clause ground_axioms ≡ None }
    ensures open_after { open_clause (ground_axioms ++ hiding_alone) ≡ Some 2 }
{}

/// The problems that `bench` makes.
pub fn bench_examples()
    ensures names { map (λ formula. formula.name) (bench_formulas 2) ≡ codes "s" ∷ codes "r1" ∷ codes "r2" ∷ codes "u" ∷ codes "c" ∷ [] }
    ensures texts { map (λ formula. formula_text (formula_of formula.formula)) (bench_formulas 1)
        ≡ codes "p0(z)" ∷ codes "! [X] : (p0(X) => p1(g(X,z)))" ∷ codes "! [X] : g(X,z) = X" ∷ codes "p1(z)" ∷ [] }
{}

/// The statuses, those of faults of reading, and which of all come exactly for their causes.
pub fn status_examples()
    ensures all { PROVED ∷ SATURATED ∷ GAVE_UP ∷ INPUT_ERROR ∷ LOAD_FAILED ∷ SINK_FAILED ∷ USAGE_SHOWN ∷ MEMORY_OUT ∷ INAPPROPRIATE ∷ REFUSED ∷ PART_SATURATED ∷ MODEL_FOUND ∷ NO_MODEL ∷ LISTED ∷ UNLISTED
        ∷ FORM_REFUTED ∷ FORM_TRUE ∷ [] ≡ 0 ∷ 1 ∷ 2 ∷ 3 ∷ 4 ∷ 5 ∷ 6 ∷ 7 ∷ 8 ∷ 9 ∷ 10 ∷ 11 ∷ 12 ∷ 13 ∷ 14 ∷ 15 ∷ 16 ∷ [] }
    ensures unread { map read_status
        (read.BadByte ∷ read.Unclosed ∷ read.Syntax ∷ read.FreeVariable ∷ read.Role ∷ read.SecondConjecture ∷ read.SelectionMissing
        ∷ read.IncludeDepth ∷ read.TooLong ∷ read.Nesting ∷ read.Load ∷ [])
        ≡ 3 ∷ 3 ∷ 3 ∷ 3 ∷ 3 ∷ 3 ∷ 3 ∷ 3 ∷ 3 ∷ 3 ∷ 4 ∷ [] }
    ensures forms { map (λ form. read_status (read.Inappropriate form)) (Typed ∷ RoleForm ∷ Number ∷ Distinct ∷ Dollar ∷ [])
        ≡ 8 ∷ 8 ∷ 8 ∷ 8 ∷ 8 ∷ [] }
    ensures exact { map is_exact (0 ∷ 1 ∷ 2 ∷ 3 ∷ 4 ∷ 5 ∷ 6 ∷ 7 ∷ 8 ∷ 9 ∷ 10 ∷ 11 ∷ 12 ∷ 13 ∷ 14 ∷ 15 ∷ 16 ∷ [])
        ≡ false ∷ false ∷ false ∷ true ∷ false ∷ false ∷ false ∷ false ∷ true ∷ true ∷ false ∷ false ∷ true ∷ true ∷ true ∷ true ∷ true ∷ [] }
{}

/// The limits of the user's guide that no other example has, as numbers: the bytes of a file and of all files, includes within each other, levels of
/// nesting in a problem and in a derivation, symbols of a parent that is bound, the measure of a size of models, and the weight of a ground list.
pub fn limit_examples()
    ensures file { MOST_TEXT_BYTES ≡ 67108864 }
    ensures files { MOST_PROBLEM_BYTES ≡ 268435456 }
    ensures includes { MOST_INCLUDES ≡ 16 }
    ensures nesting { MOST_NESTING ≡ 500 }
    ensures derivation_nesting { MOST_DERIVATION_NESTING ≡ 5000 }
    ensures bound { MOST_BOUND_SYMBOLS ≡ 8000 }
    ensures measure { MOST_MEASURE ≡ 4000000 }
    ensures weight { MOST_WEIGHT ≡ 10000000 }
{}

/// A problem has a conjecture in whatever place it stands.
pub fn conjecture_examples()
    ensures none { has_conjecture (formula_in Axiom ∷ formula_in NegatedConjecture ∷ []) ≡ false }
    ensures first { has_conjecture (formula_in Conjecture ∷ formula_in Axiom ∷ []) ≡ true }
    ensures last { has_conjecture (formula_in Axiom ∷ formula_in Conjecture ∷ []) ≡ true }
{}

/// A form means its formulas, and wouldn't without a clause, or with the empty one. `! [X] : p(X)` is a theorem where it is an axiom, and
/// not where `? [X] : p(X)` is; without a conjecture, an axiom with its negation is one, and `! [X] : p(X)` alone isn't.
pub fn meaning_examples()
    ensures form { FormMeans hiding_alone (clausal_form hiding_alone) }
    ensures no_clause { FormMeans hiding_alone (hiding_with []) → ⊥ }
    ensures empty_clause { FormMeans hiding_alone (hiding_with (clause [] ∷ [])) → ⊥ }
    ensures theorem { IsTheorem (proving every_p every_p) }
    ensures no_theorem { IsTheorem (proving some_p every_p) → ⊥ }
    ensures unsatisfiable { IsTheorem (contradiction every_p) }
    ensures satisfiable { IsTheorem (fof_axiom every_p ∷ []) → ⊥ }
{}

/// Counts of faults that rose, or stand at the end of their type, and others. What a library tells counts where its count stayed.
pub fn fault_examples()
    ensures rose { Rose 3 4 }
    ensures stayed { ¬ Rose 4 4 }
    ensures at_the_end { Rose 0 (2 ^ 64 - 1) }
    ensures told { IsTold (holding_nothing 3 3) }
    ensures failed { ¬ IsTold (holding_nothing 3 4) }
    ensures usage { IsDue None (holding_nothing 3 3) 6 usage_report }
    ensures usage_after_a_fault { ¬ IsDue None (holding_nothing 3 4) 6 usage_report }
{}

/// Usage is told with its status and its text. No word is no theorem, and no sink that took nothing was told that the program is out of memory.
pub fn row_examples()
    ensures usage { UsageRow [] (taking usage_report) 6 }
    ensures other_status { ¬ UsageRow [] (taking usage_report) 0 }
    ensures no_theorem { ¬ TheoremRow [] (holding_nothing 3 3) 0 }
    ensures memory_out { MemoryOutRow proving_row (taking (memory_out_report (codes "r1.p"))) 7 }
    ensures nothing_told { ¬ MemoryOutRow proving_row (taking []) 7 }
    ensures no_fault { ¬ LoadFaultRow proving_row (holding_nothing 3 3) (taking []) 4 }
    ensures no_saturation { ¬ SaturatedRow [] (holding_nothing 3 3) (taking []) 1 }
    ensures no_part_saturation { ¬ PartSaturatedRow [] (holding_nothing 3 3) (taking []) 10 }
    ensures nothing_given_up { ¬ GaveUpRow [] (holding_nothing 3 3) (taking []) 2 }
    ensures no_input_error { ¬ ReadFaultRow [] (holding_nothing 3 3) (taking []) 3 }
    ensures nothing_lost { ¬ LostOutputRow [] (holding_nothing 3 3) (taking []) 5 }
    ensures no_form_left_out { ¬ ReadFaultRow [] (holding_nothing 3 3) (taking []) 8 }
    ensures nothing_refused { ¬ CheckedRow [] (holding_nothing 3 3) (taking []) 9 }
    ensures nothing_found { ¬ ModelRow [] (holding_nothing 3 3) (taking []) 11 }
    ensures nothing_listed { ¬ GroundRow [] (holding_nothing 3 3) (taking []) 13 }
    ensures nothing_unlisted { ¬ GroundRow [] (holding_nothing 3 3) (taking []) 14 }
    ensures nothing_decided { ¬ DecideRow [] (holding_nothing 3 3) (taking []) 15 }
    ensures no_form_true { ¬ DecideRow [] (holding_nothing 3 3) (taking []) 16 }
    ensures nothing_sought { ¬ ModelRow [] (holding_nothing 3 3) (taking []) 12 }
{}

/// Deliveries of a text in pieces: of two, as only out of memory is told, and of two of
/// which the first fails. None goes on after a write that failed.
pub fn piece_examples()
    ensures two { DeliversInPiecesBy (Ok 3 ∷ Ok 1 ∷ []) (codes "abcd") (Ok tt) (codes "abc" ∷ codes "d" ∷ []) [] }
    ensures one_status { ¬ AreWritesBy (Ok 3 ∷ Ok 1 ∷ []) 0 (codes "abcd") (Ok tt) (codes "abc" ∷ codes "d" ∷ []) [] }
    ensures cut { DeliversInPiecesBy (Err Failed ∷ Ok 1 ∷ []) (codes "abcd") (Err Failed) (codes "abc" ∷ []) (Ok 1 ∷ []) }
    ensures no_more { (text : List ℕ) (result : Result Unit SinkFault) (handed : List (List ℕ)) →
        DeliversInPiecesBy (Err Failed ∷ Ok 1 ∷ []) text result handed [] → ⊥ }
{}
