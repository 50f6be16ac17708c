//! Tallies as texts.

ghost use Rattle.std.specs.Prelude.{Some};
ghost use Rattle.ct_find.specs.Counts.{count_text, object_text, row_json, row_text, table_text};

use crate::spread::Spread;
use crate::tally::Tally;
use std::fmt;

/// As what a tally is written.
#[derive(Clone, Copy, Debug, Drop, PartialEq, Eq)]
pub enum CountForm {
    /// As a table.
    Table,
    /// As a JSON object.
    Json,
}

// A tally that is written. Its text ends with a line feed.
#[derive(Clone, Copy, Debug, Drop)]
pub(crate) struct CountText {
    // The tally.
    pub(crate) tally: Tally,
    // As what it is written.
    pub(crate) form: CountForm,
}

impl fmt::Display for CountText {
    ghost output = { λ text. Some (count_text text.form text.tally) };

    fn fmt<W: fmt::Write>(&self, f: &mut fmt::Formatter<W>) -> fmt::Result {
        match self.form {
            CountForm::Table => write!(f, "{}", Table(self.tally)),
            CountForm::Json => write!(f, "{}", Object(self.tally)),
        }
    }
}

// A table.
#[derive(Clone, Copy, Drop)]
struct Table(Tally);

impl fmt::Display for Table {
    ghost output = { λ table. Some (table_text table.0) };

    fn fmt<W: fmt::Write>(&self, f: &mut fmt::Formatter<W>) -> fmt::Result {
        let all = self.0;
        write!(
            f,
            "{} of {} seeds {}..{} show it, {}.{} %\n           least   quartile     median   quartile   greatest\nsteps{}\nround{}\n",
            all.shown,
            all.tried,
            all.seeds.first,
            all.seeds.last,
            all.share / 10,
            all.share % 10,
            Row(all.steps),
            Row(all.rounds)
        )
    }
}

// What stands in a row behind its name.
#[derive(Clone, Copy, Drop)]
struct Row(Option<Spread>);

impl fmt::Display for Row {
    ghost output = { λ row. Some (row_text row.0) };

    fn fmt<W: fmt::Write>(&self, f: &mut fmt::Formatter<W>) -> fmt::Result {
        match self.0 {
            None => f.write_str("          -          -          -          -          -"),
            Some(spread) => write!(
                f,
                "{:>11}{:>11}{:>11}{:>11}{:>11}",
                spread.least, spread.lower, spread.median, spread.upper, spread.greatest
            ),
        }
    }
}

// A JSON object.
#[derive(Clone, Copy, Drop)]
struct Object(Tally);

impl fmt::Display for Object {
    ghost output = { λ object. Some (object_text object.0) };

    fn fmt<W: fmt::Write>(&self, f: &mut fmt::Formatter<W>) -> fmt::Result {
        let all = self.0;
        write!(
            f,
            "{{\"first\":{},\"last\":{},\"tried\":{},\"shown\":{},\"share\":{}.{},\"steps\":{},\"round\":{}}}\n",
            all.seeds.first,
            all.seeds.last,
            all.tried,
            all.shown,
            all.share / 10,
            all.share % 10,
            RowJson(all.steps),
            RowJson(all.rounds)
        )
    }
}

// A spread as JSON, null where there is none.
#[derive(Clone, Copy, Drop)]
struct RowJson(Option<Spread>);

impl fmt::Display for RowJson {
    ghost output = { λ row. Some (row_json row.0) };

    fn fmt<W: fmt::Write>(&self, f: &mut fmt::Formatter<W>) -> fmt::Result {
        match self.0 {
            None => f.write_str("null"),
            Some(spread) => write!(
                f,
                "{{\"least\":{},\"lower\":{},\"median\":{},\"upper\":{},\"greatest\":{}}}",
                spread.least, spread.lower, spread.median, spread.upper, spread.greatest
            ),
        }
    }
}
