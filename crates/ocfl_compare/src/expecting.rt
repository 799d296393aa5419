//! Looking for the objects of a list in a report.
ghost use Rattle.std.specs.Prelude.{◌≡◌, ◌++◌, All, IsPermutation, map, IfErr, IfSome, OnOk};
ghost use Rattle.std.specs.List.Sorted.{IsSorted};
ghost use Rattle.ocfl_tree.specs.{Name.{IsPlace}, Place.{place_cmp}};
ghost use Rattle.ocfl_report.specs.Text.{line_text, lines_text};
ghost use Rattle.ocfl_compare.specs.{CompareStop.{ReportStops}, Expected.{IsSearched}};
ghost use Rattle.ocfl_compare.specs.Internal.Listing.{as_object};

use crate::comparing::answer;
use crate::question::Question;
use crate::stop::CompareStop;
use crate::taking::TakeChange;
use ocfl_report::put_place;
use ocfl_tree::Place;
use ocfl_tree::laws::every_place_has_names;
use std::alloc::{AllocError, Global};
use std::io::BufRead;

/// Gives which objects of a list have no line of an object in a report, in the order of places,
/// each once and as [`Change::Missing`](crate::Change::Missing), and sorts the list. Nothing is
/// said of the places in `left` and of what is below them, nor of the storage root, which is no
/// object.
///
/// All bytes of the reader are read as a report. One line of it is in memory at a time, and the
/// list twice. `CompareStop::Now` names a bad line of the report, and `Before` is never answered.
pub fn find_expected<R: BufRead, T: TakeChange>(
    alloc: Global,
    listed: &mut Vec<Place>,
    report: &mut R,
    left: &[Place],
    taker: &mut T,
) -> Result<(), CompareStop>
    ensures searched { OnOk result (IfSome (R.remaining report.old) (λ bytes.
        IsSearched left.now listed.old.items bytes
        (λ seen. T.takes taker.old seen taker.new))) }
    ensures refused { IfErr result (λ stop. IfSome (R.remaining report.old) (λ bytes.
        ReportStops bytes stop)) }
    ensures permutation { IsPermutation listed.old.items listed.new.items }
    ensures sorted { IsSorted place_cmp listed.new.items }
{
    listed.sort_unstable();
    let mut text = Vec::new(alloc);
    match put_objects(listed.as_slice(), &mut text) {
        Ok(()) => {
            let mut before = text.as_slice();
            answer(alloc, Question::Expected, &mut before, report, left, taker)
        }
        Err(_) => Err(CompareStop::Memory),
    }
}

/// Appends the report of objects at these places, as if nothing was found at them.
fn put_objects(places: &[Place], text: &mut Vec<u8>) -> Result<(), AllocError>
    ensures text { OnOk result (text.new.items
        ≡ text.old.items ++ lines_text (map as_object places.now)) }
    ensures names { OnOk result (All IsPlace places.now) }
{
    for place in places {
        put_object(place, text)?;
    }
    Ok(())
}

fn put_object(place: &Place, text: &mut Vec<u8>) -> Result<(), AllocError>
    ensures text { OnOk result (text.new.items
        ≡ text.old.items ++ line_text (as_object place.now)) }
    ensures names { IsPlace place.now }
{
    every_place_has_names(place);
    text.extend_from_slice(b"ok\t")?;
    put_place(place, text)?;
    text.extend_from_slice(b"\t-\n")?;
    Ok(())
}
