//! Laws of engines of one owner, each the contract of a function, for engines to cite; and a caller that
//! knows nothing of its engine but the trait.

ghost use Rattle.std.specs.Prelude.{◌≡◌, ◌+◌, None, OnOk};
ghost use Rattle.graph_model.specs.OwnerLaws.{OneOwnerBegins, OneOwnerWrites, OneOwnerReads, OneOwnerCommits, OneOwnerAborts, OneOwnerServes};
ghost use Rattle.graph_model.specs.LoadLaws.{LoadIsLegal, LoadIsValid};
ghost use Rattle.graph_model.specs.OwnerExamples.{OwnerWriteExamples, OwnerRefusalExamples, FullExamples, ServiceExamples};
ghost use Rattle.graph_model.specs.LoadExamples.{LoadExamples};

use crate::engine::StepEngine;
use crate::refusal::BeginRefusal;

/// An engine whose calls are exact on one journal does to the account of the selected pass what every
/// engine does.
pub fn one_owner_meets_the_account()
    ensures begin { OneOwnerBegins }
    ensures write { OneOwnerWrites }
    ensures read { OneOwnerReads }
    ensures commit { OneOwnerCommits }
    ensures abort { OneOwnerAborts }
    ensures serve { OneOwnerServes }
{}

/// A load that is allowed leaves a legal journal, and each pass with a valid account.
pub fn loads_leave_valid_accounts()
    ensures journal { LoadIsLegal }
    ensures accounts { LoadIsValid }
{}

/// Worked examples of the exact calls and of a load, with values reckoned by hand.
pub fn owner_examples_hold()
    ensures writes { OwnerWriteExamples }
    ensures refusals { OwnerRefusalExamples }
    ensures full { FullExamples }
    ensures service { ServiceExamples }
    ensures loads { LoadExamples }
{}

/// Begins a transaction and takes it back. The journal is as it was, and a number of the pass is used up
/// where the engine let it begin.
pub fn begin_and_abort<E: StepEngine>(engine: &mut E) -> Result<(), BeginRefusal>
    requires { (E.account engine.old).start ≡ None }
    ensures journal { (E.core engine.new).journal ≡ (E.core engine.old).journal }
    ensures closed { (E.account engine.new).start ≡ None }
    ensures begun { OnOk result ((E.account engine.new).begun ≡ (E.account engine.old).begun + 1) }
    ensures turns { E.served engine.new ≡ E.served engine.old }
{
    engine.begin()?;
    engine.abort();
    Ok(())
}
