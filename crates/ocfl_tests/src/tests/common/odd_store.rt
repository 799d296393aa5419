//! Stores that answer oddly.
ghost use Rattle.std.specs.Prelude.{false};
ghost use Rattle.ocfl_tree.specs.Store.{empty_store};

use ocfl_memory::MemTree;
use ocfl_tree::{Entry, Kind, Name, Place, Tree, Trouble};

/// How a store differs from the one in memory behind it.
#[derive(Drop)]
pub enum Oddity {
    /// It does not find what is at this place, though it lists it.
    Hides(Place),
    /// Each directory but the root has the entries of this one.
    Repeats(Place),
    /// The file at this place goes on with the byte `x` and never ends.
    NeverEnds(Place),
    /// The root has this number of files more, whose names begin with `a`.
    Crowds(u64),
}

/// Adds `count` files to a listing.
fn crowd(entries: &mut Vec<Entry>, count: u64) -> Result<(), Trouble> {
    let alloc = *entries.allocator();
    for number in 0..count {
        let name = format!(in alloc; "a{number}")?;
        let Ok(name) = Name::new(alloc, name.as_str()) else {
            return Err(Trouble::Memory);
        };
        let kind = Kind::File;
        entries.push(Entry { name, kind })?;
    }
    Ok(())
}

/// A store in memory that answers oddly.
#[derive(Drop)]
pub struct Odd {
    pub inner: MemTree,
    pub oddity: Oddity,
}

impl Odd {
    /// Finds nothing at a place that is hidden, and then no file is open.
    fn look(&mut self, place: &Place) -> Result<(), Trouble> {
        match &self.oddity {
            Oddity::Hides(hidden) if *place == *hidden => {
                self.inner.close();
                Err(Trouble::Absent)
            }
            _ => Ok(()),
        }
    }

    /// Whether the file that was opened last never ends.
    fn is_endless(&self) -> bool {
        match (&self.oddity, self.inner.openings().last()) {
            (Oddity::NeverEnds(file), Some(opening)) => opening.place == *file,
            _ => false,
        }
    }
}

impl Tree for Odd {
    ghost told = { false };

    ghost state = { λ _. empty_store };

    fn list(&mut self, place: &Place) -> Result<Vec<Entry>, Trouble> {
        self.look(place)?;
        match &self.oddity {
            Oddity::Repeats(deep) if !place.path().is_empty() => self.inner.list(deep),
            Oddity::Crowds(count) if place.path().is_empty() => {
                let mut entries = self.inner.list(place)?;
                crowd(&mut entries, *count)?;
                Ok(entries)
            }
            _ => self.inner.list(place),
        }
    }

    fn open(&mut self, place: &Place) -> Result<(), Trouble> {
        self.look(place)?;
        self.inner.open(place)
    }

    fn read(&mut self, buffer: &mut [u8]) -> Result<usize, Trouble> {
        let count = self.inner.read(buffer)?;
        if count > 0 || !self.is_endless() {
            return Ok(count);
        }
        buffer.fill(b'x');
        Ok(buffer.len())
    }

    fn close(&mut self) {
        self.inner.close();
    }
}

/// A root that is unmounted after `left` of its files were opened.
#[derive(Drop)]
pub struct Unmounted {
    pub tree: MemTree,
    pub empty: MemTree,
    pub left: u64,
}

impl Tree for Unmounted {
    ghost told = { false };

    ghost state = { λ _. empty_store };

    fn list(&mut self, place: &Place) -> Result<Vec<Entry>, Trouble> {
        if self.left == 0 {
            self.empty.list(place)
        } else {
            self.tree.list(place)
        }
    }

    fn open(&mut self, place: &Place) -> Result<(), Trouble> {
        if self.left == 0 {
            return self.empty.open(place);
        }
        self.left -= 1;
        self.tree.open(place)
    }

    fn read(&mut self, buffer: &mut [u8]) -> Result<usize, Trouble> {
        self.tree.read(buffer)
    }

    fn close(&mut self) {
        self.tree.close();
    }
}

/// A root of which each second opening of one file fails.
#[derive(Drop)]
pub struct Faltering {
    pub tree: MemTree,
    pub file: Place,
    /// Whether the next one does.
    pub fails: bool,
}

impl Tree for Faltering {
    ghost told = { false };

    ghost state = { λ _. empty_store };

    fn list(&mut self, place: &Place) -> Result<Vec<Entry>, Trouble> {
        self.tree.list(place)
    }

    fn open(&mut self, place: &Place) -> Result<(), Trouble> {
        if *place == self.file {
            self.fails = !self.fails;
            if !self.fails {
                self.close();
                return Err(Trouble::Device);
            }
        }
        self.tree.open(place)
    }

    fn read(&mut self, buffer: &mut [u8]) -> Result<usize, Trouble> {
        self.tree.read(buffer)
    }

    fn close(&mut self) {
        self.tree.close();
    }
}
