//! Laws about the program's answers, each the contract of a function that does nothing.

ghost use Rattle.program_dagcar.specs.Commands.{ChangesAreNoCommand};
ghost use Rattle.program_parts.specs.Paths.{ProofsDecide};
ghost use Rattle.program_parts.specs.declared.at.Asked.TheVariants.{Data, Bytes};

/// The CAR file that `prove` writes decides its path. What `at` says of that file, it says of the
/// whole file, even if the path leads to nothing.
pub fn proofs_decide()
    ensures data { ProofsDecide Data }
    ensures bytes { ProofsDecide Bytes }
{}

/// The words that `changes_of` accepts are no command of `run_command`.
#[tactic(auto, using(crate::proofs::Running::changes_apart))]
pub fn changes_are_no_command()
    ensures { ChangesAreNoCommand }
{}
