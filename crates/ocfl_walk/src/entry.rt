//! Where a walk begins: the listings on the way to a place, of each what is above that place.
ghost use Rattle.std.specs.Prelude.{◌≡◌, ◌∷◌, ◌++◌, [], length, None, Some, IfOk, IfSome};
ghost use Rattle.std.specs.Prelude.{MatchOption, MatchResult};
ghost use Rattle.ocfl_tree.specs.{StorageRoot.{StorageRoot}, Store.{Store, IfTold}};
ghost use Rattle.ocfl_tree.specs.{Place.{Place as Spot, Text}, Listing.{IsListing}};
ghost use Rattle.ocfl_report.specs.declared.further.Further.{Further as ModelFurther};
ghost use Rattle.ocfl_inventory.specs.Table.{IsFit};
ghost use Rattle.ocfl_rules.specs.Zone.{zone};
ghost use Rattle.ocfl_item.specs.{Around.{IsPart}, Meeting.{IsFairFolder}};
ghost use Rattle.ocfl_item.specs.Ways.{Enters, IsAt, IsObject, Stops, way_below};
ghost use Rattle.ocfl_walk.specs.Internal.Entering.{StaysOut, Comes, DescendFails, IsBrought};
ghost use Rattle.ocfl_walk.specs.Internal.Entering.{IsComing, Opens, IsFairWay, Leads, LeadsOn};
ghost use Rattle.ocfl_walk.specs.Internal.Entering.{ListsBelow, ListsRoot, Starts, StartFails};
ghost use Rattle.ocfl_walk.specs.Internal.Entering.{may_open};
ghost use Rattle.ocfl_walk.specs.Standing.{StandsAt, piles_in};
ghost use Rattle.ocfl_walk.specs.Internal.Standing.{IsAroundIf, IsOrderly, IsOrderlyStand};

use crate::listing::{keep_above, sorted};
use crate::stand::{Stand, push};
use arrayvec::ArrayVec;
use ocfl_inventory::declaration::declaration;
use ocfl_inventory::{Declared, Level, is_version_name};
use ocfl_item::{
    Around, Fault, Folder, Head, can_enter, head_of, is_extensions, list, table_of_object,
};
use ocfl_report::Further;
use ocfl_tree::{Name, Place, Tree, is_text};
use std::alloc::{AllocError, Global};

/// The listing of a directory in a directory, if it may be listed.
fn listed<T: Tree>(store: &mut T, folder: &Folder, name: &Name) -> Result<Option<Folder>, Fault>
    ensures fair { IfOk result (λ next. IfSome next
        (λ inner. IsFairFolder (folder.now.place ++ name.now ∷ []) inner)) }
    ensures told { IfTold T.told (T.state store.old) (λ root.
        (further : ModelFurther) → IsListing root folder.now.place folder.now.entries.items
        → let below = folder.now.place ++ name.now ∷ [] in MatchResult result
        (λ next. MatchOption next
        (StaysOut root (T.state store.old) (T.state store.new) below)
        (λ inner. Enters root (T.state store.old) (T.state store.new) below
        inner.place inner.entries.items))
        (λ why. Stops further root (T.state store.old) (T.state store.new) (below ∷ []) [] why)) }
{
    if !can_enter(folder, name) {
        return Ok(None);
    }
    let place = folder.place.child(name)?;
    Ok(Some(list(store, place)?))
}

/// The storage root, listed, if its version is known.
pub(crate) fn known_root<T: Tree>(alloc: Global, store: &mut T) -> Result<Option<Folder>, Fault>
    ensures fair { IfOk result (λ next. IfSome next (λ base. IsFairFolder [] base)) }
    ensures told { IfTold T.told (T.state store.old) (λ root.
        (further : ModelFurther)
        → ListsRoot further root (T.state store.old) (T.state store.new) result) }
{
    let base = list(store, Place::root(alloc))?;
    let Head::Known = head_of(&base, Level::Root) else {
        return Ok(None);
    };
    Ok(Some(base))
}

/// An object with its table, if its head does not stop.
fn opened<T: Tree>(
    alloc: Global,
    store: &mut T,
    further: Further,
    folder: &Folder,
) -> Result<Option<Around>, Fault>
    ensures kept { IfOk result (λ next. IfSome next
        (λ object. (object.place ≡ folder.now.place) × IsFit object.table)) }
    ensures told { IfTold T.told (T.state store.old) (λ root.
        IsObject root folder.now.place folder.now.entries.items
        → Opens further root (T.state store.old) (T.state store.new) folder.now.place result) }
{
    let (table, root) = table_of_object(alloc, store, further, folder)?;
    let Some(table) = table else {
        return Ok(None);
    };
    let place = folder.place.try_clone()?;
    Ok(Some(Around { place, table, root }))
}

/// What is below a directory of the storage hierarchy, or below an object, that was listed, if
/// it is entered.
fn into_directory<T: Tree>(
    alloc: Global,
    store: &mut T,
    further: Further,
    object: &mut Option<Around>,
    inner: Folder,
) -> Result<Option<Folder>, Fault>
    requires { object.old ≡ None }
    ensures fair { (d : Spot) (n : Text) → IsFairFolder (d ++ n ∷ []) inner
        → IfOk result (λ o. IsFairWay d n object.old object.new o) }
    ensures told { IfTold T.told (T.state store.old) (λ root.
        (s : Store) (d : Spot) (n : Text) → ListsBelow root s (T.state store.old) d n inner
        → (r : Spot)
        → Leads further root s (T.state store.new) d n r object.old object.new result) }
{
    match declaration(&inner.entries, Level::Object) {
        Declared::None => Ok(Some(inner)),
        Declared::One(_) => {
            let Some(around) = opened(alloc, store, further, &inner)? else {
                return Ok(None);
            };
            *object = Some(around);
            Ok(Some(inner))
        }
        Declared::Unknown(_) | Declared::Several => Ok(None),
    }
}

/// Whether a name leads from a directory to another that is listed: in an object by its table, in
/// the storage hierarchy unless it is the storage root's extensions.
fn leads_on(object: &Option<Around>, folder: &Folder, name: &Name) -> bool
    requires { IsAroundIf folder.now.place object.now }
    ensures { (root : StorageRoot) → IsAt root folder.now.place folder.now.entries.items
        → LeadsOn root folder.now.place name.now object.now result }
{
    let Some(object) = object else {
        return !is_extensions(folder, name);
    };
    let depth = folder.place.depth() - object.place.depth();
    if depth == 0 {
        is_version_name(name.as_str())
    } else if depth == 1 {
        is_text(name.as_str(), object.table.content_directory())
    } else {
        true
    }
}

/// The directory that a name leads to, if it is entered.
pub(crate) fn down<T: Tree>(
    alloc: Global,
    store: &mut T,
    further: Further,
    object: &mut Option<Around>,
    folder: &Folder,
    name: &Name,
) -> Result<Option<Folder>, Fault>
    requires { IsAroundIf folder.now.place object.old }
    ensures fair { IfOk result (λ o. IsFairWay folder.now.place name.now object.old object.new o) }
    ensures told { IfTold T.told (T.state store.old) (λ root.
        IsAt root folder.now.place folder.now.entries.items
        → IsPart further root folder.now.place object.old → (r : Spot)
        → Leads further root (T.state store.old) (T.state store.new) folder.now.place name.now r
        object.old object.new result) }
{
    if !leads_on(object, folder, name) {
        return Ok(None);
    }
    let Some(inner) = listed(store, folder, name)? else {
        return Ok(None);
    };
    match object {
        None => into_directory(alloc, store, further, object, inner),
        Some(_) => Ok(Some(inner)),
    }
}

/// Goes down to a place by its names.
fn go_down<T: Tree>(
    alloc: Global,
    store: &mut T,
    further: Further,
    stand: &mut Stand,
    folder: Folder,
    names: &[Name],
) -> Result<(), Fault>
    requires coming { IsComing folder.place folder.entries.items
        (piles_in stand.old.last stand.old.listings.items) stand.old.around }
    requires way { stand.old.last ≡ Some (folder.place ++ names.now) }
    requires depth { length stand.old.listings.items ≡ length folder.place }
    ensures last { stand.new.last ≡ stand.old.last }
    ensures orderly { IfOk result (λ _. IsOrderly (folder.place ++ names.now)
        (piles_in stand.new.last stand.new.listings.items) stand.new.around) }
    ensures told { IfTold T.told (T.state store.old) (λ root.
        IsAt root folder.place folder.entries.items
        → IsPart further root folder.place stand.old.around
        → let may = may_open stand.old.around
        (zone root (folder.place ++ names.now)) in MatchResult result
        (λ _. Comes further root (T.state store.old) (T.state store.new)
        (way_below folder.place names.now) [] may []
        × IsBrought further root folder.place names.now
        (piles_in stand.old.last stand.old.listings.items)
        (piles_in stand.new.last stand.new.listings.items) stand.new.around)
        (λ why. DescendFails further root (T.state store.old) (T.state store.new)
        (way_below folder.place names.now) may why)) }
{
    let Some((name, rest)) = names.split_first() else {
        push(&mut stand.listings, sorted(folder));
        return Ok(());
    };
    let inner = down(alloc, store, further, &mut stand.around, &folder, name)?;
    let mut left = sorted(folder);
    keep_above(&mut left.entries, name);
    push(&mut stand.listings, left);
    match inner {
        Some(inner) => go_down(alloc, store, further, stand, inner, rest),
        None => Ok(()),
    }
}

/// Where a walk stands at a place before anything is listed.
fn stand_without_listings(alloc: Global, place: &Place) -> Result<Stand, AllocError>
    ensures { IfOk result (λ stand. (stand.listings.items ≡ []) × (stand.around ≡ None)
        × (stand.last ≡ Some place.now)) }
{
    let last = Some(place.try_clone()?);
    Ok(Stand {
        listings: ArrayVec::new_in(alloc),
        around: None,
        last,
    })
}

/// Goes down from the storage root to the place where a walk stands.
fn go_down_from_root<T: Tree>(
    alloc: Global,
    store: &mut T,
    further: Further,
    stand: &mut Stand,
    after: &Place,
) -> Result<(), Fault>
    requires listings { stand.old.listings.items ≡ [] }
    requires around { stand.old.around ≡ None }
    requires last { stand.old.last ≡ Some after.now }
    ensures last { stand.new.last ≡ Some after.now }
    ensures orderly { IfOk result (λ _. IsOrderlyStand stand.new) }
    ensures told { IfTold T.told (T.state store.old) (λ root.
        MatchResult result
        (λ _. Starts further root (T.state store.old) (T.state store.new) after.now
        × StandsAt further root stand.new (Some after.now))
        (λ why. StartFails further root (T.state store.old) (T.state store.new) after.now why)) }
{
    let names = after.names()?;
    let Some(base) = known_root(alloc, store)? else {
        return Ok(());
    };
    go_down(alloc, store, further, stand, base, &names)
}

/// Where a walk stands at a place.
pub(crate) fn stand_at<T: Tree>(
    alloc: Global,
    store: &mut T,
    further: Further,
    after: &Place,
) -> Result<Stand, Fault>
    ensures last { IfOk result (λ stand. stand.last ≡ Some after.now) }
    ensures orderly { IfOk result (λ stand. IsOrderlyStand stand) }
    ensures told { IfTold T.told (T.state store.old) (λ root.
        MatchResult result
        (λ stand. Starts further root (T.state store.old) (T.state store.new) after.now
        × StandsAt further root stand (Some after.now))
        (λ why. StartFails further root (T.state store.old) (T.state store.new) after.now why)) }
{
    let mut stand = stand_without_listings(alloc, after)?;
    go_down_from_root(alloc, store, further, &mut stand, after)?;
    Ok(stand)
}
