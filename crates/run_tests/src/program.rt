//! Tests of the program's library over readers, writers and texts of their own, some of which fail. The answers of
//! the built program are tested by `cases/`, at the top of the repository.
mod any_arguments;
mod cut_decks;
mod deck_reports;
mod failures;
mod inputs;
mod ledger;
mod progressing;
mod shelf;
mod sizes;
mod writers;
