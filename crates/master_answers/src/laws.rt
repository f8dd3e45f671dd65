ghost use Rattle.std.specs.Prelude.{◌≡◌, ◌++◌, ℕ, List};
ghost use Rattle.message_types.specs.declared.signed.Signed.{Signed};
ghost use Rattle.message_types.specs.declared.body.Body.{Body};
ghost use Rattle.protocol_rules.specs.Group.{Group};
ghost use Rattle.master_knowledge.specs.declared.knowledge.Knowledge.{Knowledge as Knowing};
ghost use Rattle.master_knowledge.specs.Past.{Past};
ghost use Rattle.master_knowledge.specs.Knows.{Knows};
ghost use Rattle.master_answers.specs.declared.replica_state.ReplicaState.{ReplicaState as Replica};
ghost use Rattle.master_answers.specs.Replica.{IsReplicaOf};

/// A law, which does nothing: where a master comes to know more words, or its knowledge is told of events or catches up,
/// what it said counts as before.
pub fn knowledge_may_grow()
    ensures words { (g : Group) (me : ℕ) (kept : Replica) (knowledge : Knowing) (taken then_taken known more : List (Signed Body)) (past then_past : Past) (said : List Body)
        → Knows g me knowledge then_taken (known ++ more) then_past said → then_past.answered ≡ past.answered
        → IsReplicaOf g me kept taken known past said
        → IsReplicaOf g me (record kept { knowledge = knowledge }) then_taken (known ++ more) then_past said }
    ensures events { (g : Group) (me : ℕ) (kept : Replica) (knowledge : Knowing) (taken known : List (Signed Body)) (past then_past : Past) (said : List Body)
        → Knows g me knowledge taken known then_past said → then_past.answered ≡ past.answered
        → IsReplicaOf g me kept taken known past said
        → IsReplicaOf g me (record kept { knowledge = knowledge }) taken known then_past said }
{}
