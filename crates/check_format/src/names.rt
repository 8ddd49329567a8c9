//! All names of variables in the order of an image: those of the cell variables, then that of the face and that of the edge
//! variable.

ghost use Rattle.std.specs.Prelude.{◌≡◌, ◌<◌, ◌≤◌, [], length, slice_index_or};
ghost use Rattle.mesh_model.specs.Fields.VariableNames.{longest_name};
ghost use Rattle.check_format.specs.Written.{all_names};

use mesh_model::language::names::Names;

/// How many names there are.
pub fn name_count(names: &Names) -> u32
    ensures count { result ≡ length (all_names names.now) }
    ensures few { result ≤ 6 }
{
    names.cells() + u32::from(names.face().is_some()) + u32::from(names.edge().is_some())
}

/// The name at a place, from 0.
pub fn nth_name(names: &Names, place: u32) -> &str
    requires { place < length (all_names names.now) }
    ensures name { result.now ≡ slice_index_or (all_names names.now) place [] }
    ensures short { length result.now ≤ longest_name }
{
    if place < names.cells() {
        return names.cell(place);
    }
    if place == names.cells()
        && let Some(name) = names.face()
    {
        return name;
    }
    match names.edge() {
        Some(name) => name,
        None => unreachable!(),
    }
}
