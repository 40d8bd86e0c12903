//! The common names of capabilities by index: a name and its kind and index determine each other. Each call does what the
//! same call of [`NameTable::Common`] does.

ghost use Rattle.std.specs.Prelude.{option_map};
ghost use Rattle.ti_words.specs.declared.Kind.TheVariants as kinds;
ghost use Rattle.ti_names.specs.declared.name_table.NameTable.TheVariants as tables;
ghost use Rattle.ti_names.specs.AllNames.{IsNameAt, IsPlaceOf};

use crate::NameTable;
use ti_words::Kind;

/// The name of the flag at an index of an entry, such as `bw` at 0, if the table has one.
pub fn flag_name(index: usize) -> Option<&'static str>
    ensures { IsNameAt tables.Common kinds.Flag index (option_map (λ name. name.now) result) }
{
    NameTable::Common.flag_name(index)
}

/// The name of the number at an index of an entry, such as `cols` at 0, if the table has one.
pub fn number_name(index: usize) -> Option<&'static str>
    ensures { IsNameAt tables.Common kinds.Number index (option_map (λ name. name.now) result) }
{
    NameTable::Common.number_name(index)
}

/// The name of the text at an index of an entry, such as `cup` at 10, if the table has one.
pub fn text_name(index: usize) -> Option<&'static str>
    ensures { IsNameAt tables.Common kinds.Text index (option_map (λ name. name.now) result) }
{
    NameTable::Common.text_name(index)
}

/// The kind and index of the capability that has a name, if the table has it: `cup` is the text at 10.
pub fn find(name: &str) -> Option<(Kind, usize)>
    ensures { IsPlaceOf tables.Common name.now result }
{
    NameTable::Common.find(name)
}
