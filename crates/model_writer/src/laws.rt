// The laws: each is the contract of a function without arguments and with an empty body.

ghost use Rattle.model_writer.specs.Laws.{FoundTablesAreModels, RuledOutSizesHaveNoModel};

/// The printed part of a model of a problem's form is a model of the problem.
pub fn found_tables_are_models()
    ensures { FoundTablesAreModels }
{}

/// Where sizes are ruled out for a problem's form, the problem has no model of these sizes.
pub fn ruled_out_sizes_have_no_model()
    ensures { RuledOutSizesHaveNoModel }
{}
