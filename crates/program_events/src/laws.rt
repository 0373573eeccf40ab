//! Laws of the arguments, each stated as the contract of a function that does nothing.

ghost use Rattle.program_events.specs.Laws.{EventIsNoCommand};

/// The arguments that `event_of` accepts are not a command of `program_dagcar::run_command`.
#[tactic(auto, using(crate::proofs::Apart::event_apart))]
pub fn event_is_no_command()
    ensures { EventIsNoCommand }
{}
