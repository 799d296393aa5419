//! An audit writes what checks of all places write, one after the other.
use crate::tests::common::digests::with_digests;
use crate::tests::common::object::short_digits;
use crate::tests::common::store::place_of;
use ocfl_digest::Block;
use ocfl_memory::MemTree;
use ocfl_report::{Further, put_place};
use ocfl_scrub::{audited, checked};
use ocfl_tree::Place;
use std::alloc::Global;
use std::test::Fail;

/// Numbers that look random, the same for the same seed: a linear congruence with Knuth's numbers.
#[derive(Drop)]
pub(crate) struct Dice {
    pub(crate) state: u64,
}

impl Dice {
    pub(crate) fn throw(&mut self, sides: u64) -> u64 {
        let grown = self.state.wrapping_mul(6_364_136_223_846_793_005);
        self.state = grown.wrapping_add(1_442_695_040_888_963_407);
        if sides == 0 {
            0
        } else {
            (self.state / 4_294_967_296) % sides
        }
    }

    fn is_one_of(&mut self, sides: u64) -> bool {
        self.throw(sides) == 0
    }
}

/// A storage root, and all places that may have lines.
#[derive(Drop)]
pub(crate) struct Grown {
    alloc: Global,
    pub(crate) store: MemTree,
    pub(crate) places: Vec<Place>,
}

impl Grown {
    /// Keeps the place and all above it, and makes directories of these.
    fn come_to(&mut self, path: &str) -> Result<Place, Fail> {
        let mut place = Place::root(self.alloc);
        for name in place_of(self.alloc, path)?.names()? {
            if !place.path().is_empty() {
                let _ = self.store.put_dir(&place);
            }
            place.push(name)?;
            self.places.push(place.try_clone()?)?;
        }
        Ok(place)
    }

    fn file(&mut self, path: &str, bytes: &[u8]) -> Result<(), Fail> {
        let place = self.come_to(path)?;
        let _ = self.store.put_file(&place, bytes.to_vec(self.alloc)?);
        Ok(())
    }

    fn dir(&mut self, path: &str) -> Result<(), Fail> {
        let place = self.come_to(path)?;
        let _ = self.store.put_dir(&place);
        Ok(())
    }

    fn other(&mut self, path: &str) -> Result<(), Fail> {
        let place = self.come_to(path)?;
        let _ = self.store.put_other(&place);
        Ok(())
    }

    /// A file, a directory, something else or nothing.
    fn any(&mut self, dice: &mut Dice, path: &str) -> Result<(), Fail> {
        match dice.throw(8) {
            0 => self.dir(path),
            1 => self.other(path),
            2 => self.file(path, b""),
            3 | 4 => self.file(path, b"abc"),
            _ => Ok(()),
        }
    }
}

const CONTENT: [&str; 8] = [
    "v1/content/f",
    "v1/content/a/b",
    "v1/content/a-b",
    "v1/content/a/c",
    "v2/content/f",
    "v2/content/f/g",
    "v3/content/x",
    "v1/other/x",
];

const STRAY: [&str; 6] = [
    "junk",
    "logs/l",
    "extensions/e",
    "v1/notes",
    "v1/inventory.json",
    "v1",
];

/// Puts the declaration of an object, mostly a right one.
fn grow_declaration(grown: &mut Grown, dice: &mut Dice, object: &str) -> Result<(), Fail> {
    let declaration = if dice.is_one_of(9) {
        ""
    } else {
        "ocfl_object_1.1\n"
    };
    let name = if dice.is_one_of(9) {
        "0=ocfl_object_3.0"
    } else {
        "0=ocfl_object_1.1"
    };
    grown.file(
        format!(in grown.alloc; "{object}/{name}")?.as_str(),
        declaration.as_bytes(),
    )
}

/// Puts what may be in an object's content directories, and gives the paths that the manifest is
/// to list.
fn grow_content(grown: &mut Grown, dice: &mut Dice, object: &str) -> Result<String, Fail> {
    let alloc = grown.alloc;
    let mut listed = String::new(alloc);
    for path in CONTENT {
        let whole = format!(in alloc; "{object}/{path}")?;
        if dice.is_one_of(2) {
            if !listed.is_empty() {
                listed.push(',')?;
            }
            listed.push_str(format!(in alloc; "\"{path}\"")?.as_str())?;
            let place = place_of(alloc, whole.as_str())?;
            grown.places.push(place)?;
        }
        grown.any(dice, whole.as_str())?;
    }
    Ok(listed)
}

/// Puts an object at the path, right or wrong.
fn grow_object(grown: &mut Grown, dice: &mut Dice, object: &str) -> Result<(), Fail> {
    let alloc = grown.alloc;
    grow_declaration(grown, dice, object)?;
    let listed = grow_content(grown, dice, object)?;
    for path in STRAY {
        if dice.is_one_of(3) {
            grown.any(dice, format!(in alloc; "{object}/{path}")?.as_str())?;
        }
    }
    let digest = if dice.is_one_of(4) {
        "NOTHING_SHA256"
    } else {
        "ABC_SHA256"
    };
    let inventory = if dice.is_one_of(12) {
        format!(in alloc; "{{}}")?
    } else {
        format!(in alloc;
            "{{\"digestAlgorithm\":\"sha256\",\"manifest\":{{\"{digest}\":[{listed}]}}}}"
        )?
    };
    let inventory = with_digests(alloc, inventory.as_str())?;
    if !dice.is_one_of(12) {
        let path = format!(in alloc; "{object}/inventory.json")?;
        grown.file(path.as_str(), inventory.as_bytes())?;
    }
    if !dice.is_one_of(6) {
        let digits = short_digits(alloc, inventory.as_bytes())?;
        let right = format!(in alloc; "{digits} inventory.json\n")?;
        let path = format!(in alloc; "{object}/inventory.json.sha256")?;
        grown.file(path.as_str(), right.as_bytes())?;
    }
    Ok(())
}

pub(crate) fn grow(alloc: Global, seed: u64) -> Result<Grown, Fail> {
    let mut dice = Dice { state: seed };
    let mut grown = Grown {
        alloc,
        store: MemTree::new(alloc),
        places: Vec::new(alloc),
    };
    grown.places.push(Place::root(alloc))?;
    if !dice.is_one_of(20) {
        grown.file("0=ocfl_1.1", b"ocfl_1.1\n")?;
    }
    for object in ["o", "o-x", "p/q", "extensions/r"] {
        if dice.is_one_of(2) {
            grow_object(&mut grown, &mut dice, object)?;
        }
    }
    for path in ["notes", "x", "y/readme", "z", "extensions", "p", "p/q/r"] {
        if dice.is_one_of(2) {
            grown.any(&mut dice, path)?;
        }
    }
    grown.places.sort()?;
    Ok(grown)
}

/// Whether one of the places comes twice.
fn has_twice<'a>(alloc: Global, places: impl Iterator<Item = &'a Place>) -> Result<bool, Fail> {
    let mut before: Vec<&Place> = Vec::new(alloc);
    for place in places {
        if before.contains(&place) {
            return Ok(true);
        }
        before.push(place)?;
    }
    Ok(false)
}

/// What the checks of all places write, one after the other.
fn checks(alloc: Global, grown: &mut Grown, block: &mut Block) -> Result<String, Fail> {
    let mut joined = Vec::new(alloc);
    let mut before: Option<&Place> = None;
    for place in &grown.places {
        if before == Some(place) {
            continue;
        }
        before = Some(place);
        let mut path = Vec::new(alloc);
        put_place(place, &mut path)?;
        let path = String::from_utf8(path)?;
        let listed = grown.store.listings().len();
        let _ = checked(
            alloc,
            &mut grown.store,
            Further::Nothing,
            path.as_str(),
            block,
            &mut joined,
        );
        for listing in grown.store.listings().iter().skip(listed) {
            if !place.starts_with(listing) {
                return Err("a check lists another place".into());
            }
        }
    }
    Ok(String::from_utf8(joined)?)
}

#[test]
fn an_audit_is_the_checks_of_all_places(rt: HostRuntime) -> Result<(), Fail> {
    let mut block = Block::new(rt.alloc())?;
    for seed in 1..101 {
        let mut grown = grow(rt.alloc(), seed)?;
        let mut all = Vec::new(rt.alloc());
        let _ = audited(
            rt.alloc(),
            &mut grown.store,
            Further::Nothing,
            &mut block,
            &mut all,
        );
        let listed = grown.store.listings().iter();
        assert!(rt; !has_twice(rt.alloc(), listed)?, "seed {seed}");
        let opened = grown.store.openings().iter().map(|opening| &opening.place);
        assert!(rt; !has_twice(rt.alloc(), opened)?, "seed {seed}");
        let all = String::from_utf8(all)?;
        let joined = checks(rt.alloc(), &mut grown, &mut block)?;
        assert_eq!(rt; all.as_str(), joined.as_str(), "seed {seed}");
    }
    Ok(())
}
