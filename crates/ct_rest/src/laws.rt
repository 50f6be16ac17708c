//! What is done where nothing moves any more, and which rounds end with a decision.

ghost use Rattle.std.specs.Prelude.{◌≡◌, ℕ, ◌++◌, List, Some};
ghost use Rattle.ct_names.specs.Membership.{IsIn};
ghost use Rattle.ct_model.specs.AtValue.{Standing};
ghost use Rattle.ct_model.specs.Next.{next};
ghost use Rattle.ct_model.specs.Run.{run};
ghost use Rattle.ct_model.specs.Setting.{Setting};
ghost use Rattle.ct_model.specs.State.{State, member, wires};
ghost use Rattle.ct_model.specs.Wire.{envelopes};
ghost use Rattle.ct_model.specs.declared.mail.Mail.TheVariants.{All};
ghost use Rattle.ct_model.specs.declared.step.Step.{Step};
ghost use Rattle.ct_model.specs.declared.step.Step.TheVariants.{Conclude};
ghost use Rattle.ct_model.specs.declared.wire.Wire.TheVariants.{Dec, Nack};
ghost use Rattle.ct_rest.specs.Rest.{IsAtRest, IsDone, IsUp};

/// Where nothing moves any more, all is done (Chandra and Toueg, sections 6.2 and 7: no correct process stays blocked in consensus, all
/// deliver the same, and what one of them broadcast): where a majority is up, each that is up has received what those that are up sent
/// it, none of them can take a step but a suspicion or what comes from outside, and none waits for a coordinator that crashed, there
/// all that are up have delivered the same sequence, and in it is each message that one of them received or submitted.
pub fn law_rest()
    ensures { (s : Setting) (steps : List Step) (g : State) → IsAtRest s steps g → (p q : ℕ) → IsUp s g p → IsUp s g q → IsDone g p q }
{}

/// A coordinator that nobody suspected decides (Chandra and Toueg, section 6.2): where no nack of a round was sent, the step in which
/// its coordinator concludes it sends the decision, which is its estimate, to all.
pub fn law_stable()
    ensures { (s : Setting) (steps : List Step) (g h : State) (p : ℕ) (c : Standing) → run s steps ≡ Some g →
        (member g p).current ≡ Some c → ((q : ℕ) → IsIn (Nack (member g p).last c.round q) (wires g) → ⊥) →
        next s g (Conclude p) ≡ Some h → h.sent ≡ g.sent ++ envelopes s.members (All (Dec (member g p).last c.round c.estimate)) }
{}
