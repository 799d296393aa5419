//! A system in memory, with links, in which things are exchanged between two calls, and calls fail.
use ocfl_folder::{Answer, FsTree, Node, ReadAnswer, Seen, System};
use ocfl_tree::{Kind, Name, Place, Tree, Trouble};
use std::alloc::{AllocError, Global};
use std::cell::{Cell, RefCell, RefMut};
use std::io::{self, ErrorKind};
use std::rc::Rc;
use std::test::Fail;

/// What a thing is: a link leads to the thing with that number.
#[derive(Clone, Copy)]
enum What {
    Dir,
    File(&'static str),
    Link(u64),
}

/// A thing: its number, that of the directory that it is in, and its name there.
#[derive(Clone, Copy)]
struct Thing {
    number: u64,
    above: u64,
    name: &'static str,
    what: What,
}

/// The number of what everything is in, of the storage root, and of a folder beside it.
const TOP: u64 = 1;

const ROOT: u64 = 2;

const OUTSIDE: u64 = 3;

/// What lies where. Files in the storage root have their path in them.
const THINGS: [(u64, u64, &str, What); 20] = [
    (TOP, TOP, "", What::Dir),
    (ROOT, TOP, "root", What::Dir),
    (OUTSIDE, TOP, "outside", What::Dir),
    (4, ROOT, "a", What::File("a")),
    (5, ROOT, "d", What::Dir),
    (6, 5, "e", What::Dir),
    (7, 6, "f", What::File("d/e/f")),
    (8, 6, "g", What::File("d/e/g")),
    (9, 5, "h", What::File("d/h")),
    (10, 5, "to_outside", What::Link(OUTSIDE)),
    (11, ROOT, "z", What::Dir),
    (12, 11, "f", What::File("z/f")),
    (20, OUTSIDE, "d", What::Dir),
    (21, 20, "e", What::Dir),
    (22, 21, "f", What::File("outside")),
    (23, 21, "g", What::File("outside")),
    (24, 20, "h", What::File("outside")),
    (25, OUTSIDE, "e", What::Dir),
    (26, 25, "f", What::File("outside")),
    (27, OUTSIDE, "f", What::File("outside")),
];

/// What happens before a call.
#[derive(Clone, Copy, Debug, PartialEq, Eq)]
enum Event {
    /// The call fails.
    Fails(ErrorKind),
    /// A thing is moved out of the storage root, and a link to another one takes its place.
    BecomesLink(u64, u64),
    /// The same, and another one itself takes its place.
    BecomesOther(u64, u64),
    /// A thing is moved out of the storage root.
    IsMoved(u64),
}

/// All things, where the process is, and what happens before which call.
#[derive(Drop)]
struct World {
    things: Vec<Thing>,
    at: u64,
    calls: u64,
    when: u64,
    event: Option<Event>,
}

impl World {
    fn new(alloc: Global, when: u64, event: Option<Event>) -> Result<World, Fail> {
        let mut things = Vec::new(alloc);
        for (number, above, name, what) in THINGS {
            things.push(Thing {
                number,
                above,
                name,
                what,
            })?;
        }
        Ok(World {
            things,
            at: TOP,
            calls: 0,
            when,
            event,
        })
    }

    /// Moves a thing, and gives where it was.
    fn moves(
        &mut self,
        number: u64,
        above: u64,
        name: &'static str,
    ) -> Option<(u64, &'static str)> {
        for thing in &mut self.things {
            if thing.number == number {
                let was = (thing.above, thing.name);
                thing.above = above;
                thing.name = name;
                return Some(was);
            }
        }
        None
    }

    /// Counts a call, before which something may happen.
    fn call(&mut self) -> io::Result<()> {
        self.calls += 1;
        if self.calls != self.when {
            return Ok(());
        }
        match self.event {
            Some(Event::Fails(kind)) => return Err(io::Error::from(kind)),
            Some(Event::IsMoved(number)) => {
                let _ = self.moves(number, OUTSIDE, "moved");
            }
            Some(Event::BecomesOther(number, other)) => {
                if let Some((above, name)) = self.moves(number, OUTSIDE, "moved") {
                    let _ = self.moves(other, above, name);
                }
            }
            Some(Event::BecomesLink(number, other)) => {
                if let Some((above, name)) = self.moves(number, OUTSIDE, "moved") {
                    self.things.push(Thing {
                        number: 99,
                        above,
                        name,
                        what: What::Link(other),
                    })?;
                }
            }
            None => {}
        }
        Ok(())
    }

    /// The thing with a number.
    fn thing(&self, number: u64) -> io::Result<Thing> {
        for thing in &self.things {
            if thing.number == number {
                return Ok(*thing);
            }
        }
        Err(io::Error::from(ErrorKind::NotFound))
    }

    /// The thing with a name in a directory.
    fn find(&self, above: u64, name: &str) -> io::Result<Thing> {
        for thing in &self.things {
            if thing.above == above && thing.number != TOP && thing.name == name {
                return Ok(*thing);
            }
        }
        Err(io::Error::from(ErrorKind::NotFound))
    }

    /// Where a link leads, and anything else itself.
    fn followed(&self, thing: Thing) -> io::Result<Thing> {
        match thing.what {
            What::Link(number) => self.thing(number),
            What::Dir | What::File(_) => Ok(thing),
        }
    }

    /// Goes into a directory.
    fn goes(&mut self, above: u64, name: &str) -> io::Result<()> {
        let thing = self.followed(self.find(above, name)?)?;
        match thing.what {
            What::Dir => {
                self.at = thing.number;
                Ok(())
            }
            What::File(_) | What::Link(_) => Err(io::Error::from(ErrorKind::NotADirectory)),
        }
    }
}

/// What a look at a thing sees.
fn seen(thing: Thing) -> Seen {
    Seen {
        kind: match thing.what {
            What::Dir => Kind::Dir,
            What::File(_) => Kind::File,
            What::Link(_) => Kind::Other,
        },
        node: Node {
            device: 1,
            number: thing.number,
            made: None,
        },
    }
}

/// A system over such a world.
#[derive(Drop)]
struct MemSystem {
    alloc: Global,
    world: RefCell<World>,
    /// How many calls were made.
    calls: Rc<Cell<u64>>,
}

impl MemSystem {
    /// The world, after a call was counted.
    fn call(&self) -> io::Result<RefMut<'_, World>> {
        self.calls.set(self.calls.get().saturating_add(1));
        let mut world = self.world.try_borrow_mut()?;
        world.call()?;
        Ok(world)
    }
}

/// An open file.
#[derive(Drop)]
struct MemFile {
    thing: Thing,
    left: &'static str,
}

impl System for MemSystem {
    type File = MemFile;

    type Names = Vec<&'static str>;

    fn start(&mut self) -> io::Result<()> {
        self.call()?.goes(TOP, "root")
    }

    fn enter(&mut self, name: &str) -> io::Result<()> {
        let mut world = self.call()?;
        let at = world.at;
        world.goes(at, name)
    }

    fn leave(&mut self) -> io::Result<()> {
        let mut world = self.call()?;
        let above = world.thing(world.at)?.above;
        world.at = above;
        Ok(())
    }

    fn look_here(&self) -> io::Result<Seen> {
        let world = self.call()?;
        Ok(seen(world.thing(world.at)?))
    }

    fn look(&self, name: &str) -> io::Result<Seen> {
        let world = self.call()?;
        Ok(seen(world.find(world.at, name)?))
    }

    fn names(&self) -> io::Result<Vec<&'static str>> {
        let world = self.call()?;
        let mut names = Vec::new(self.alloc);
        for thing in &world.things {
            if thing.above == world.at && thing.number != TOP {
                names.push(thing.name)?;
            }
        }
        Ok(names)
    }

    fn next_name(&self, names: &mut Vec<&'static str>, name: &mut Vec<u8>) -> io::Result<bool> {
        let _ = self.call()?;
        let Some(next) = names.pop() else {
            return Ok(false);
        };
        name.clear();
        name.extend_from_slice(next.as_bytes())?;
        Ok(true)
    }

    fn open(&self, name: &str) -> io::Result<MemFile> {
        let world = self.call()?;
        let thing = world.followed(world.find(world.at, name)?)?;
        match thing.what {
            What::File(text) => Ok(MemFile { thing, left: text }),
            What::Dir | What::Link(_) => Err(io::Error::from(ErrorKind::IsADirectory)),
        }
    }

    fn look_at(&self, file: &mut MemFile) -> io::Result<Seen> {
        let _ = self.call()?;
        Ok(seen(file.thing))
    }

    fn read(&self, file: &mut MemFile, buffer: &mut [u8]) -> io::Result<usize> {
        let _ = self.call()?;
        let count = file.left.len().min(buffer.len());
        buffer[..count].copy_from_slice(&file.left.as_bytes()[..count]);
        file.left = file.left.get(count..).unwrap_or("");
        Ok(count)
    }

    fn note(&mut self, _place: &Place, _answer: Answer) -> Result<(), AllocError> {
        Ok(())
    }

    fn note_read(&mut self, _room: usize, _answer: ReadAnswer) -> Result<(), AllocError> {
        Ok(())
    }
}

/// A folder over such a system, and how many calls it makes.
fn folder(
    alloc: Global,
    when: u64,
    event: Option<Event>,
) -> Result<(FsTree<MemSystem>, Rc<Cell<u64>>), Fail> {
    let calls = Rc::new(alloc, Cell::new(0))?;
    let system = MemSystem {
        alloc,
        world: RefCell::new(World::new(alloc, when, event)?),
        calls: calls.clone()?,
    };
    Ok((FsTree::over(alloc, system), calls))
}

/// What a walk met: a line for each file, with its path and what it holds, and one for each call
/// that failed.
#[derive(Drop)]
struct Met {
    text: String,
    troubles: usize,
}

impl Met {
    fn fails(&mut self, alloc: Global, place: &Place, trouble: Trouble) -> Result<(), Fail> {
        self.troubles += 1;
        let line = format!(in alloc; "{} {trouble:?};", place.path())?;
        self.text.push_str(line.as_str())?;
        Ok(())
    }

    fn file<T: Tree>(&mut self, alloc: Global, store: &mut T, place: &Place) -> Result<(), Fail> {
        let mut buffer = [0; 9];
        let read = store.open(place).and_then(|()| store.read(&mut buffer));
        match read {
            Ok(count) => {
                let held = str::from_utf8(&buffer[..count]).unwrap_or("?");
                let line = format!(in alloc; "{}={held};", place.path())?;
                self.text.push_str(line.as_str())?;
            }
            Err(trouble) => self.fails(alloc, place, trouble)?,
        }
        store.close();
        Ok(())
    }
}

/// Walks over all directories and files, the last ones first, and goes on after each failure.
fn walked<T: Tree>(alloc: Global, store: &mut T) -> Result<Met, Fail> {
    let mut met = Met {
        text: String::new(alloc),
        troubles: 0,
    };
    let mut ahead = Vec::new(alloc);
    ahead.push((Kind::Dir, Place::root(alloc)))?;
    for _ in 0..100u64 {
        let Some((kind, place)) = ahead.pop() else {
            break;
        };
        match kind {
            Kind::File => met.file(alloc, store, &place)?,
            Kind::Dir => match store.list(&place) {
                Ok(entries) => {
                    for entry in &entries {
                        ahead.push((entry.kind, place.child(&entry.name)?))?;
                    }
                }
                Err(trouble) => met.fails(alloc, &place, trouble)?,
            },
            Kind::Other => {}
        }
    }
    Ok(met)
}

/// What a walk over all meets if nothing happens.
const ALL: &str = "z/f=z/f;d/h=d/h;d/e/g=d/e/g;d/e/f=d/e/f;a=a;";

/// How many calls a walk over all makes at most.
const MOST_CALLS: u64 = 120;

/// The folder after a walk over all, before one of whose calls this happened, and what the walk
/// met; `None` if it makes fewer calls.
fn walked_when(
    alloc: Global,
    when: u64,
    event: Event,
) -> Result<Option<(FsTree<MemSystem>, Met)>, Fail> {
    let (mut store, calls) = folder(alloc, when, Some(event))?;
    let met = walked(alloc, &mut store)?;
    Ok((calls.get() >= when).then_some((store, met)))
}

#[test]
fn a_folder_stands_where_it_is_asked_to(rt: HostRuntime) -> Result<(), Fail> {
    let (mut store, calls) = folder(rt.alloc(), 0, None)?;
    for row in ["at first", "again"] {
        let met = walked(rt.alloc(), &mut store)?;
        assert_eq!(rt; (met.text.as_str(), met.troubles), (ALL, 0), "{row}");
    }
    assert!(rt; calls.get() < 2 * MOST_CALLS, "{} calls", calls.get());
    Ok(())
}

#[test]
fn what_takes_the_place_of_a_folder_is_not_read(rt: HostRuntime) -> Result<(), Fail> {
    let alloc = rt.alloc();
    for event in [
        Event::BecomesLink(5, 20),
        Event::BecomesLink(6, 25),
        Event::BecomesLink(6, 21),
        Event::BecomesLink(7, 27),
        Event::IsMoved(5),
        Event::IsMoved(6),
        Event::IsMoved(7),
    ] {
        for when in 1..MOST_CALLS {
            let Some((mut store, met)) = walked_when(alloc, when, event)? else {
                break;
            };
            let row = format!(in alloc; "{event:?} before call {when}")?;
            assert!(rt; !met.text.contains("outside"), "{row}: {}", met.text);
            // Whatever was read is what is there, and the folder goes on.
            let again = walked(alloc, &mut store)?;
            assert!(rt;
                !again.text.contains("outside"),
                "{row}, again: {}",
                again.text
            );
            assert!(rt;
                again.text.contains("z/f=z/f;"),
                "{row}, again: {}",
                again.text
            );
            assert!(rt; again.text.contains("a=a;"), "{row}, again: {}", again.text);
        }
    }
    Ok(())
}

#[test]
fn another_folder_in_the_place_of_one_is_found_out(rt: HostRuntime) -> Result<(), Fail> {
    let alloc = rt.alloc();
    for event in [Event::BecomesOther(5, 20), Event::BecomesOther(6, 25)] {
        for when in 1..MOST_CALLS {
            let Some((mut store, met)) = walked_when(alloc, when, event)? else {
                break;
            };
            let row = format!(in alloc; "{event:?} before call {when}")?;
            // One that was there before the look is read; none is read for another.
            let both = met.text.contains("d/e/f=d/e/f;") && met.text.contains("d/e/f=outside;");
            assert!(rt; !both, "{row}: {}", met.text);
            let again = walked(alloc, &mut store)?;
            assert!(rt;
                again.text.contains("z/f=z/f;"),
                "{row}, again: {}",
                again.text
            );
        }
    }
    Ok(())
}

#[test]
fn a_call_that_fails_is_told_and_leaves_the_rest(rt: HostRuntime) -> Result<(), Fail> {
    let alloc = rt.alloc();
    for kind in [
        ErrorKind::PermissionDenied,
        ErrorKind::NotFound,
        ErrorKind::OutOfMemory,
        ErrorKind::Interrupted,
    ] {
        for when in 1..MOST_CALLS {
            let Some((mut store, met)) = walked_when(alloc, when, Event::Fails(kind))? else {
                break;
            };
            let row = format!(in alloc; "{kind:?} of call {when}")?;
            let fails = kind != ErrorKind::Interrupted;
            assert_eq!(rt; met.troubles, usize::from(fails), "{row}: {}", met.text);
            let reason = store.reason().map(|error| error.kind());
            assert_eq!(rt; reason, fails.then_some(kind), "{row}");
            let again = walked(alloc, &mut store)?;
            assert_eq!(rt; again.text.as_str(), ALL, "{row}, again");
        }
    }
    Ok(())
}
