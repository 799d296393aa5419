//! Writing the text of separators.
ghost use Rattle.std.specs.{Prelude.{◌≡◌, ◌++◌, OnOk, OnErr}, Io.{StartsWith}};
ghost use Rattle.ocfl_separators.specs.Separators.{part_line, parts_text};

use crate::separators::Separators;
use ocfl_report::put_place;
use ocfl_tree::Place;
use std::alloc::AllocError;

/// Appends the text of separators: a line for each, its place as report lines write it.
///
/// The only error is running out of memory. Then `out` is as it was.
pub fn put_parts(separators: &Separators, out: &mut Vec<u8>) -> Result<(), AllocError>
    ensures ok { OnOk result (out.new.items ≡ out.old.items ++ parts_text separators.now) }
    ensures err { OnErr result (out.new.items ≡ out.old.items) }
{
    let start = out.len();
    let put = put_lines(separators.places(), out);
    if put.is_err() {
        out.truncate(start);
    }
    put
}

/// Appends the lines. If memory is refused, the beginning of them stays after what was there.
fn put_lines(places: &[Place], out: &mut Vec<u8>) -> Result<(), AllocError>
    ensures ok { OnOk result (out.new.items ≡ out.old.items ++ parts_text places.now) }
    ensures begins { StartsWith out.new.items out.old.items }
{
    for place in places {
        put_line(place, out)?;
    }
    Ok(())
}

fn put_line(place: &Place, out: &mut Vec<u8>) -> Result<(), AllocError>
    ensures ok { OnOk result (out.new.items ≡ out.old.items ++ part_line place.now) }
    ensures begins { StartsWith out.new.items out.old.items }
{
    put_place(place, out)?;
    out.push(b'\n')?;
    Ok(())
}
