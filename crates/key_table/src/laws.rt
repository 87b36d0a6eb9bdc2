//! Laws over the definitions.
ghost use Rattle.key_table.specs.Keys.{same_key};
ghost use Rattle.key_table.specs.Tables.{Tells};

/// The test of keys that hash tables use tells whether two keys are one.
fn keys_tell()
    ensures { Tells same_key }
{}
