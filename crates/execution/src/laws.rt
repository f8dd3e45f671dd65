ghost use Rattle.std.specs.Prelude.{◌≡◌, ℕ, List, Option};
ghost use Rattle.message_types.specs.declared.updates.Update.{Update};
ghost use Rattle.protocol_rules.specs.Group.{Group};
ghost use Rattle.protocol_rules.specs.Execution.{Request};
ghost use Rattle.execution.specs.Ran.{Ran, IsRunOf};

/// A law, which does nothing: only which request is certified as what counts. So the run that was handed each
/// certificate that its master comes to know is the run of all certificates that it knows.
pub fn only_certificates_count()
    ensures { (g : Group) (m : Ran) (certified other : Request → Option Update) (runs : List (List (List ℕ)))
        → ((r : Request) → certified r ≡ other r) → IsRunOf g m certified runs → IsRunOf g m other runs }
{}
