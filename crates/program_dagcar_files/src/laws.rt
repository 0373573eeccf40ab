//! Laws about the words, and about indexes, each the contract of a function that does nothing.

ghost use Rattle.program_parts.specs.declared.at.Asked.TheVariants.{Data, Bytes};
ghost use Rattle.program_dagcar_files.specs.Gets.{IndexGivesTheBlock};
ghost use Rattle.program_dagcar_files.specs.IndexWords.{IndexWordsAreNoCommand};
ghost use Rattle.program_dagcar_files.specs.PathAnswers.{IndexLeadsThere, WaysBind};
ghost use Rattle.program_dagcar_files.specs.Words.{IndexIsNoCommand, FilterIsNoCommand, MergeIsNoCommand};
ghost use Rattle.program_dagcar_files.specs.Words.{CommitWordsAreNoCommand, SplitIsNoCommand};

/// The words that `index_of` accepts are no command of `run_command`.
#[tactic(auto, using(crate::proofs::Apart::index_apart))]
pub fn index_is_no_command()
    ensures { IndexIsNoCommand }
{}

/// The words that `index_words_of` accepts are no command of `run_command`.
#[tactic(auto, using(crate::proofs::Apart::index_words_apart))]
pub fn index_words_are_no_command()
    ensures { IndexWordsAreNoCommand }
{}

/// The words that `program_sections::filter_of` accepts are no command of `run_command`.
pub fn filter_is_no_command()
    ensures { FilterIsNoCommand }
{}

/// The words that `program_sections::merge_of` accepts are no command of `run_command`.
pub fn merge_is_no_command()
    ensures { MergeIsNoCommand }
{}

/// The words that `program_records::commit_words_of` accepts are no command of `run_command`.
pub fn commit_words_are_no_command()
    ensures { CommitWordsAreNoCommand }
{}

/// The words that `program_sections::split_of` accepts are no command of `run_command`.
pub fn split_is_no_command()
    ensures { SplitIsNoCommand }
{}

/// What `get` writes by an index is what it writes without one.
pub fn index_gives_the_block()
    ensures { IndexGivesTheBlock }
{}

/// What `at` writes by an index is what it writes without one.
pub fn index_leads_there()
    ensures data { IndexLeadsThere Data }
    ensures bytes { IndexLeadsThere Bytes }
{}

/// What `at` answers over the blocks on the way is what it answers for any file, even if the path
/// leads to nothing.
pub fn ways_bind()
    ensures data { WaysBind Data }
    ensures bytes { WaysBind Bytes }
{}
