//! Laws of diagrams.

ghost use Rattle.ct_model.specs.Rehearsal.{Rehearsal};
ghost use Rattle.ct_records.specs.Replay.{IsAllowed};
ghost use Rattle.ct_diagram.specs.Diagram.{diagram_text};
ghost use Rattle.ct_diagram.specs.Window.{part_of};
ghost use Rattle.ct_diagram.specs.declared.window.Window.{Window};
ghost use Rattle.ct_laws.specs.Diagrams.{BeginsOnce, EndsOnce, HasArrows, HasSteps, KnowsSent};
ghost use Rattle.ct_laws.specs.Xml.{IsXml};

/// A diagram has each of the window's steps in its column. Where the record is allowed up to the window's last step, what the diagram has
/// of envelopes are arrows: each goes from a step of the window that sends or repeats its envelope to the first later step that receives
/// or loses it, or only begins where none does; or, of an envelope that was sent before the window, from the left edge to the first step
/// of the window that receives or loses it, where none before repeats it. Each such arrow of an envelope that is asked for is there once,
/// and nothing else is: so one begins at each step of the window that sends or repeats an envelope, and one ends at each that receives or
/// loses one. The text is well-formed XML, of any record.
#[tactic(auto, using(crate::proofs::Documents::diagram_reads, crate::proofs::Numbered::of_arrows))]
pub fn law_diagram()
    ensures steps { (window : Window) (w : Rehearsal) → HasSteps window (part_of window w) }
    ensures arrows { (window : Window) (w : Rehearsal) → IsAllowed (part_of window w) → HasArrows window (part_of window w) }
    ensures sent { (window : Window) (w : Rehearsal) → IsAllowed (part_of window w) → KnowsSent window (part_of window w) }
    ensures begun { (window : Window) (w : Rehearsal) → IsAllowed (part_of window w) → BeginsOnce window (part_of window w) }
    ensures ended { (window : Window) (w : Rehearsal) → IsAllowed (part_of window w) → EndsOnce window (part_of window w) }
    ensures xml { (window : Window) (w : Rehearsal) → IsXml (diagram_text window w) }
{}
