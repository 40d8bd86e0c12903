//! Laws of the tables of names, each proved and with nothing to run.

ghost use Rattle.std.specs.Prelude.{◌≡◌, length};
ghost use Rattle.ti_names.specs.AllNames.{CommonNamesAreNames, EachHasALongName, HasNoEmptyNameIn, HasOneNameIn, HasOnePlaceIn, NameAndPlaceAgreeIn};
ghost use Rattle.ti_names.specs.NameLists.{all_flags, all_numbers, all_texts};
ghost use Rattle.ti_names.specs.declared.name_table.NameTable.{NameTable};

/// In each table a kind and index have at most one name, and a name stands once, under one kind; so the calls on names are
/// inverse to each other. No name is empty.
pub fn names_stand_once()
    ensures one_name { (table : NameTable) → HasOneNameIn table }
    ensures one_place { (table : NameTable) → HasOnePlaceIn table }
    ensures not_empty { (table : NameTable) → HasNoEmptyNameIn table }
    ensures inverse { (table : NameTable) → NameAndPlaceAgreeIn table }
{}

/// A common name means the same kind and index among all names. A capability has a long name exactly if it has a short one.
/// There are 44 flags, 39 numbers and 414 texts.
#[tactic(auto, unfolding(crate::specs::NameLists::all_flags, crate::specs::NameLists::all_numbers, crate::specs::NameLists::all_texts))]
pub fn tables_agree()
    ensures all { CommonNamesAreNames }
    ensures long { EachHasALongName }
    ensures count { (length all_flags ≡ 44) × (length all_numbers ≡ 39) × (length all_texts ≡ 414) }
{}
