//! Names of capabilities, which are those of ncurses.

use crate::tests::check_rows;
use std::str::from_utf8;
use ti_fixtures::{Finds, Given, Unfound, only_if, place_of, show_debug};
use ti_names::{NameTable, find, find_short_or_long, flag_name, number_name, text_name};
use ti_words::Kind;

/// Kinds and indexes, and the common name there, if there is one.
const COMMON: &str = r"
flag | 28 => bce
flag | 2 => -
number | 13 => colors
text | 360 => setab
text | 361 => -
";

/// The kind of a field.
fn kind_of(field: &str) -> Kind {
    if field == "flag" {
        Kind::Flag
    } else if field == "number" {
        Kind::Number
    } else {
        Kind::Text
    }
}

/// The common name of a row.
struct CommonNameIn;

impl Finds for CommonNameIn {
    fn find(&self, given: &Given<'_, '_>, found: &mut Vec<u8>) -> Result<(), Unfound> {
        let [kind, index, ..] = given.fields();
        let index = place_of(index)?;
        let name = match kind_of(kind) {
            Kind::Flag => flag_name(index),
            Kind::Number => number_name(index),
            Kind::Text => text_name(index),
        };
        Ok(found.extend_from_slice(name.unwrap_or("").as_bytes())?)
    }
}

#[test]
fn names_are_those_of_ncurses(rt: HostRuntime) {
    check_rows(&rt, COMMON, &CommonNameIn);
}

/// The same for the tables of names.
const IN_TABLES: &str = r"
flag | 2 | all => xsb
number | 38 | all => OTkn
text | 146 | all => acsc
text | 414 | all => -
text | 10 | long => cursor_address
flag | 0 | long => auto_left_margin
text | 146 | common => -
";

/// The table of a field.
fn table_of(field: &str) -> NameTable {
    if field == "common" {
        NameTable::Common
    } else if field == "long" {
        NameTable::Long
    } else {
        NameTable::All
    }
}

/// The name of a row.
struct NameIn;

impl Finds for NameIn {
    fn find(&self, given: &Given<'_, '_>, found: &mut Vec<u8>) -> Result<(), Unfound> {
        let [kind, index, table, ..] = given.fields();
        let (table, index) = (table_of(table), place_of(index)?);
        let name = match kind_of(kind) {
            Kind::Flag => table.flag_name(index),
            Kind::Number => table.number_name(index),
            Kind::Text => table.text_name(index),
        };
        Ok(found.extend_from_slice(name.unwrap_or("").as_bytes())?)
    }
}

#[test]
fn all_names_are_those_of_ncurses(rt: HostRuntime) {
    check_rows(&rt, IN_TABLES, &NameIn);
}

/// Common names, and where they stand.
const PLACES: &str = r"
cup => Some((Text, 10))
cols => Some((Number, 0))
xon => Some((Flag, 20))
 => None
";

/// Where a common name stands.
struct CommonPlace;

impl Finds for CommonPlace {
    fn find(&self, given: &Given<'_, '_>, found: &mut Vec<u8>) -> Result<(), Unfound> {
        show_debug(found, &find(given.text))
    }
}

#[test]
fn common_names_are_found(rt: HostRuntime) {
    check_rows(&rt, PLACES, &CommonPlace);
}

/// Names, a table, and where it has them.
const PLACES_IN_TABLES: &str = r"
box1 | all => Some((Text, 413))
cup | all => Some((Text, 10))
\377 | all => None
max_colors | long => Some((Number, 13))
cup | long => None
acsc | common => None
cup | common => Some((Text, 10))
";

/// Where a name stands, which as a text and as bytes is the same.
struct PlaceIn;

impl Finds for PlaceIn {
    fn find(&self, given: &Given<'_, '_>, found: &mut Vec<u8>) -> Result<(), Unfound> {
        let table = table_of(given.fields()[1]);
        let place = table.find_bytes(given.bytes);
        show_debug(found, &place)?;
        match from_utf8(given.bytes) {
            Ok(text) => only_if(table.find(text) == place),
            Err(_) => Ok(()),
        }
    }
}

#[test]
fn names_are_found_in_tables(rt: HostRuntime) {
    check_rows(&rt, PLACES_IN_TABLES, &PlaceIn);
}

/// Names, short or long, and where they stand.
const SHORT_OR_LONG: &str = r"
setaf => Some((Text, 359))
set_a_foreground => Some((Text, 359))
set_a_foregrounD => None
 => None
";

/// Where a name stands, short or long.
struct ShortOrLongPlace;

impl Finds for ShortOrLongPlace {
    fn find(&self, given: &Given<'_, '_>, found: &mut Vec<u8>) -> Result<(), Unfound> {
        show_debug(found, &find_short_or_long(given.bytes))
    }
}

#[test]
fn names_are_found_short_or_long(rt: HostRuntime) {
    check_rows(&rt, SHORT_OR_LONG, &ShortOrLongPlace);
}
