// Filling templates: runs of text are copied, and numbers written where variables stand.
ghost use Rattle.std.specs.Prelude.{◌≡◌, ◌≤◌, ◌∷◌, ◌++◌, OnOk, string_bytes, is_some, length, take, nat_eq, IfSome};
ghost use Rattle.std.specs.Prelude.{IsUtf8};
ghost use Rattle.std.specs.List.{starts_with};
ghost use Rattle.implicit_tiling.specs.Template.{filled, variable_at, variables};
ghost use Rattle.uri_template.specs.Filling.{scheme_of, tile_of, FindsVariable};

use itoa::Buffer;
use std::alloc::AllocError;

/// Appends the filled text. An `Err` may leave part of it behind the bytes that `out` had.
pub(crate) fn append_filled(
    text: &str,
    axes: u32,
    level: u32,
    coords: [u32; 3],
    out: &mut String,
) -> Result<(), AllocError>
    requires { (2 ≤ axes) × (axes ≤ 3) }
    ensures filled { OnOk result (string_bytes out.new ≡ string_bytes out.old ++ filled (scheme_of axes) text.now
        (tile_of level coords)) }
    ensures kept { take (length (string_bytes out.old)) (string_bytes out.new) ≡ string_bytes out.old }
{
    let mut digits = Buffer::new();
    let mut rest = text;
    while let Some((before, after)) = rest.split_once('{') {
        out.push_str(before)?;
        match variable(axes, level, coords, after) {
            Some((number, behind)) => {
                out.push_str(digits.format(number))?;
                rest = behind;
            }
            None => {
                out.push('{')?;
                rest = after;
            }
        }
    }
    out.push_str(rest)
}

// The number of the variable whose name begins behind a '{', and the text behind its '}'.
pub(crate) fn variable<'t>(
    axes: u32,
    level: u32,
    coords: [u32; 3],
    text: &'t str,
) -> Option<(u32, &'t str)>
    requires { (2 ≤ axes) × (axes ≤ 3) }
    ensures { FindsVariable (variable_at (variables (scheme_of axes) (tile_of level coords))
        (123 ∷ text.now)) text.now result }
{
    if let Some(behind) = behind_name(text, "level}") {
        return Some((level, behind));
    }
    if let Some(behind) = behind_name(text, "x}") {
        return Some((coords[0], behind));
    }
    if let Some(behind) = behind_name(text, "y}") {
        return Some((coords[1], behind));
    }
    if axes == 3 {
        if let Some(behind) = behind_name(text, "z}") {
            return Some((coords[2], behind));
        }
    }
    None
}

// The text behind a name, where it begins so.
fn behind_name<'t>(text: &'t str, name: &str) -> Option<&'t str>
    ensures starts { is_some result ≡ starts_with nat_eq text.now name.now }
    ensures parts { IfSome result (λ behind. text.now ≡ name.now ++ behind.now) }
    ensures text { IfSome result (λ behind. IsUtf8 behind.now) }
{
    text.strip_prefix(name)
}
