// The names of parts, one after another.
ghost use Rattle.std.specs.Prelude.{◌≡◌, map};
ghost use Rattle.prem_syntax.specs.Name.{name_bytes};
ghost use Rattle.prem_build.specs.Tables.Names.{first_name, rest_names};

use prem_syntax::Name;

/// The first name, and nothing where there is none.
pub fn first_name(names: &[Name]) -> &[u8]
    ensures { result.now ≡ first_name (map name_bytes names.now) }
{
    match names {
        [name, ..] => name.bytes(),
        [] => &[],
    }
}

/// The names behind the first one.
pub fn rest_names(names: &[Name]) -> &[Name]
    ensures { map name_bytes result.now ≡ rest_names (map name_bytes names.now) }
{
    match names {
        [_, rest @ ..] => rest,
        [] => names,
    }
}
