// The laws of lawful histories: each is the contract of a function without arguments and with an empty body.

mod chains;
mod components;
mod histories;
mod models;
mod telling;

pub use chains::chains_are_steps;
pub use components::components_are_finest;
pub use histories::{
    batches_stay_right, claimed_in_time, clauses_have_lines, clauses_stay, counted_once,
    deaths_are_justified, deaths_were_proposed, ended_jobs_are_gone, heavy_or_not,
    jobs_are_counted, jobs_stay_out, jobs_were_given, lines_are_derived, living_differ, names_rise,
    none_is_empty, nothing_comes_after, nothing_follows_rest, numbers_fit, one_job_a_clause,
    outcomes_stay, picks_are_chosen, positions_are_registered, positions_stay,
    refuted_is_refutation, registered_are_one_part, registered_are_whole, replaced_were_reduced,
    set_aside_are_heavy, spent_is_the_count, tags_fit, told_have_positions,
};
pub use models::{models_are_right, names_are_met, propositional_clauses_stay};
pub use telling::{given_are_told, jobs_were_told, news_are_registered, told_are_news};
