// The lengths of filled templates, by the scan of `filling` without its copies.
ghost use Rattle.std.specs.Prelude.{◌≡◌, ◌≤◌, ◌*◌, length};
ghost use Rattle.std.specs.Fmt.{decimal};
ghost use Rattle.implicit_tiling.specs.Template.{filled};
ghost use Rattle.uri_template.specs.Filling.{scheme_of, tile_of};

use crate::filling::variable;
use itoa::Buffer;

/// The length of the filled text. It takes no memory.
pub(crate) fn length_filled(text: &str, axes: u32, level: u32, coords: [u32; 3]) -> u64
    requires axes { (2 ≤ axes) × (axes ≤ 3) }
    requires short { length text.now ≤ 1024 }
    ensures length { result ≡ length (filled (scheme_of axes) text.now (tile_of level coords)) }
    ensures short { result ≤ 10 * length text.now }
{
    let mut count = 0u64;
    let mut rest = text;
    while let Some((before, after)) = rest.split_once('{') {
        count += before.len() as u64;
        match variable(axes, level, coords, after) {
            Some((number, behind)) => {
                count += digits_of(number);
                rest = behind;
            }
            None => {
                count += 1;
                rest = after;
            }
        }
    }
    count + rest.len() as u64
}

// How many digits a number has.
fn digits_of(number: u32) -> u64
    ensures digits { result ≡ length (decimal number) }
    ensures few { result ≤ 10 }
{
    Buffer::new().format(number).len() as u64
}
