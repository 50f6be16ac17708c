//! Laws of the definitions.

ghost use Rattle.std.specs.Prelude.{◌≡◌, Ok};
ghost use Rattle.ct_model.specs.Rehearsal.{Rehearsal};
ghost use Rattle.ct_records.specs.Fits.{IsStorable};
ghost use Rattle.ct_records.specs.Script.{script};
ghost use Rattle.ct_records.specs.Text.{record_text};

/// What is written of a record is read as that record.
pub fn law_round_trip()
    ensures { (w : Rehearsal) → IsStorable w → script (record_text w) ≡ Ok w }
{}
