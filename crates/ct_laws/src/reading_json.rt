//! Laws of what is written as JSON.

ghost use Rattle.std.specs.Prelude.{◌≡◌, ℕ, List, Ok, length};
ghost use Rattle.ct_names.specs.declared.refusal.Refusal.{Refusal};
ghost use Rattle.ct_model.specs.Rehearsal.{Rehearsal};
ghost use Rattle.ct_model.specs.Senders.{senders};
ghost use Rattle.ct_records.specs.Replay.{IsAllowed, IsRefused};
ghost use Rattle.ct_records.specs.Script.{script};
ghost use Rattle.ct_json.specs.Json.{report_json, report_value};
ghost use Rattle.ct_json.specs.JsonState.{state_values};
ghost use Rattle.ct_views.specs.Answer.{part_of, refused_shown, shown_text};
ghost use Rattle.ct_views.specs.declared.form.Form.TheVariants.{Json};
ghost use Rattle.ct_views.specs.declared.selection.Selection.{Selection};
ghost use Rattle.ct_views.specs.declared.view.View.TheVariants.{State, Steps};
ghost use Rattle.ct_laws.specs.Fitting.{IsFitting};
ghost use Rattle.ct_laws.specs.JsonSteps.{shown_values, steps_values};
ghost use Rattle.ct_laws.specs.JsonValues.{AreRead, IsRead};
ghost use Rattle.ct_laws.specs.Sessions.{lines_heard};

/// The numbers of each record that is read fit the fields that hold them, as the laws below ask.
#[tactic(auto, using(crate::proofs::Values::ReadFitting::script_fits))]
pub fn law_fitting()
    ensures { (input : List ℕ) (w : Rehearsal) → script input ≡ Ok w → IsFitting w }
{}

/// The report of a record as JSON is read by `serde_json` as one value, which has the numbers of the record and of its state.
pub fn law_report_json()
    ensures read { (w : Rehearsal) → IsFitting w → IsAllowed w → IsRead (report_json w) (report_value w) }
{}

/// Each line of the state after the first steps of a record, as JSON, is read by `serde_json` as one value: the first as that of the
/// whole, and the others, in order, as those of the members.
pub fn law_state_json()
    ensures read { (count : ℕ) (w : Rehearsal) → IsFitting w → IsAllowed (part_of (State count Json) w) →
        let part = part_of (State count Json) w in
        AreRead (lines_heard (shown_text (State count Json) part)) (state_values part (senders part.setting part.steps)) }
{}

/// Each line of what is shown of a record's steps as JSON is read by `serde_json` as one value: in order as those of the steps that
/// are asked for; where a step is refused, as those of the steps before it that are asked for, and the last as that of this step.
#[tactic(auto, using(crate::proofs::Values::StepsMild::steps_read, crate::proofs::Values::StepsMild::shown_read))]
pub fn law_steps_json()
    ensures taken { (selection : Selection) (w : Rehearsal) → IsFitting w → IsAllowed w →
        AreRead (lines_heard (shown_text (Steps selection Json) w)) (steps_values selection w (length w.steps)) }
    ensures refused { (selection : Selection) (w : Rehearsal) (number : ℕ) (refusal : Refusal) → IsFitting w → IsRefused w number refusal →
        AreRead (lines_heard (refused_shown (Steps selection Json) w number refusal)) (shown_values selection w number refusal) }
{}
