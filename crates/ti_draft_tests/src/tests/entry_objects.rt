//! Entries as JSON.

use crate::tests::check_rows;
use ti_entry::read;
use ti_fixtures::{Finds, Given, Unfound};
use ti_json::entry_json;

/// Entries as arrays of objects.
const OBJECTS: &str = r#"
@EXTENDED => [{"kind":"format","value":"legacy"},{"kind":"names","value":"t"},{"kind":"flag","name":"bw","value":true},{"kind":"number","name":"cols","value":80},{"hex":"07","kind":"text","name":"bel","value":"\^G"},{"kind":"flag","name":"AX","own":true,"value":true},{"hex":"1b5b334a","kind":"text","name":"E3","own":true,"value":"\\\\E[3J"}]
@WIDE_EXTENDED => [{"kind":"format","value":"wide"},{"kind":"names","value":"t"},{"kind":"flag","name":"bw","value":true},{"kind":"number","name":"cols","value":80},{"hex":"07","kind":"text","name":"bel","value":"\^G"},{"kind":"number","name":"U8","own":true,"value":70000}]
"#;

/// The entry of a row as JSON.
struct ObjectIn;

impl Finds for ObjectIn {
    fn find(&self, given: &Given<'_, '_>, found: &mut Vec<u8>) -> Result<(), Unfound> {
        let object = entry_json(*found.allocator(), &read(given.bytes)?)?;
        Ok(found.extend_from_slice(object.as_slice())?)
    }
}

#[test]
fn each_capability_is_an_object(rt: HostRuntime) {
    check_rows(&rt, OBJECTS, &ObjectIn);
}

/// An entry with names that need an escape, in which nothing has a value of its own but for a text that needs an escape: a flag is
/// missing, and a flag, a number, a text and an extended flag are cancelled.
const HOSTILE: &str = r#"
^Z^A^I\000^B\000^A\000^B\000^D\000t|"a\\b"\377\000\377\376\000\376\377\376\377\000\000"\200 \000^A\000\000\000\000\000^A\000^E\000\376\000\000\000a "b\000 => [{"kind":"format","value":"legacy"},{"kind":"names","value":"t|\\"a\\\\\\\\b\\"\\\\377"},{"kind":"flag","name":"bw","state":"missing"},{"kind":"flag","name":"am","state":"cancelled"},{"kind":"number","name":"cols","state":"cancelled"},{"kind":"text","name":"cbt","state":"cancelled"},{"hex":"228020","kind":"text","name":"bel","value":"\\"\\\\200\\\\s"},{"kind":"flag","name":"a\\\\s\\"b","own":true,"state":"cancelled"}]
"#;

#[test]
fn what_has_no_value_has_a_state(rt: HostRuntime) {
    check_rows(&rt, HOSTILE, &ObjectIn);
}
