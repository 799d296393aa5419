//! What is chosen of a storage root, and whether a night has to wait, by the files of a folder.
use ocfl_arguments::{Chosen, NightAsked, NightBounds, Until};
use ocfl_given::given::{Given, text_of};
use ocfl_given::planning::{find_plan, last_cost};
use ocfl_given::waiting::find_wait;
use ocfl_kept::stand::Standing;
use ocfl_messages::Known;
use ocfl_report::Further;
use ocfl_scope::{Scope, ScopeStop};
use ocfl_separators::{Separators, put_parts};
use ocfl_terminal::paths::why_no_place;
use ocfl_terminal::roots::{find_ends, part_number};
use ocfl_terminal::scope::{read_scope, say_no_scope};
use std::alloc::Global;
use std::fs;
use std::test::Fail;
use std::time::SystemTime;

/// The part with a number, by the separators in `parts`.
fn part(alloc: Global, number: usize) -> Result<Chosen, Fail> {
    Ok(Chosen::Part {
        parts: String::from_str(alloc, "parts")?,
        number,
    })
}

#[test]
fn what_is_chosen_is_found(rt: HostRuntime) -> Result<(), Fail> {
    let alloc = rt.alloc();
    let mut text = Vec::new(alloc);
    put_parts(&Separators::new(alloc), &mut text)?;
    fs::write(&rt, "parts", text.as_slice())?;
    assert!(rt; matches!(read_scope(&rt, &Chosen::All), Ok(Scope::Whole)));
    let branch = Chosen::Branch(String::from_str(alloc, "a/b")?);
    match read_scope(&rt, &branch) {
        Ok(Scope::Branch(place)) => assert_eq!(rt; place.path(), "a/b"),
        _ => return Err(Fail::from("no branch")),
    }
    assert!(rt; matches!(read_scope(&rt, &part(alloc, 1)?), Ok(Scope::Part(_))));
    assert!(rt;
        matches!(
            read_scope(&rt, &part(alloc, 2)?),
            Err(ScopeStop::NoSuchPart)
        )
    );
    let bad = Chosen::Branch(String::from_str(alloc, "a//b")?);
    assert!(rt; matches!(read_scope(&rt, &bad), Err(ScopeStop::BadPath)));
    Ok(())
}

#[test]
fn scopes_that_are_not_found_have_statuses(rt: HostRuntime) -> Result<(), Fail> {
    let absent = part(rt.alloc(), 1)?;
    assert_eq!(rt; say_no_scope(&rt, &absent, &ScopeStop::NoSuchPart), 2);
    assert_eq!(rt; say_no_scope(&rt, &absent, &ScopeStop::Memory), 3);
    match find_ends(&rt, &absent) {
        Ok(_) => Err(Fail::from("ends without a file")),
        Err(failure) => {
            assert_eq!(rt; failure.status, 3);
            Ok(())
        }
    }
}

#[test]
fn parts_have_ends_and_numbers(rt: HostRuntime) -> Result<(), Fail> {
    let alloc = rt.alloc();
    let mut text = Vec::new(alloc);
    put_parts(&Separators::new(alloc), &mut text)?;
    fs::write(&rt, "parts", text.as_slice())?;
    let first = part(alloc, 1)?;
    assert!(rt; matches!(find_ends(&rt, &first), Ok(Some(_))));
    assert!(rt; matches!(find_ends(&rt, &Chosen::All), Ok(None)));
    assert_eq!(rt; part_number(&first), Some(1));
    assert_eq!(rt; part_number(&Chosen::All), None);
    Ok(())
}

#[test]
fn paths_of_no_place_have_reasons(rt: HostRuntime) -> Result<(), Fail> {
    for (path, wanted) in [
        ("", "the path is empty: the storage root itself is '.'"),
        ("a//b", "the path has an empty name between two slashes"),
        ("a//../b", "the path has an empty name between two slashes"),
        ("a/../b", "no name in the path may be '.' or '..'"),
        ("a/.//b", "no name in the path may be '.' or '..'"),
        (
            "/a/../b",
            "give the path below the storage root, without a slash at its beginning or end",
        ),
        (
            "a//",
            "give the path below the storage root, without a slash at its beginning or end",
        ),
        ("a\0/b", "the path has a name that no file can have"),
    ] {
        assert_eq!(rt; why_no_place(path), wanted);
    }
    Ok(())
}

/// A night over all of `/root` whose state is in `state`.
fn asked(alloc: Global, every: Option<u64>) -> Result<NightAsked, Fail> {
    Ok(NightAsked {
        state: String::from_str(alloc, "state")?,
        root: String::from_str(alloc, "/root")?,
        bounds: NightBounds {
            budget: None,
            files: None,
            slice: None,
            until: Until::Never,
            every,
        },
        chosen: Chosen::All,
        further: Further::Nothing,
        known: None,
        expected: None,
        create: false,
        force_root: false,
        stop_at_faults: false,
    })
}

/// A night that began then, by what is asked.
fn given_by<'a>(alloc: Global, asked: &'a NightAsked, began: u64) -> Result<Given<'a>, Fail> {
    Ok(Given {
        asked,
        began,
        root: String::from_str(alloc, "/root")?,
        known: Known::new(alloc),
        shown: None,
        program: String::new(alloc),
    })
}

/// After cycle 7, whose report is closed or not.
fn after_seven(is_closed: bool) -> Standing {
    Standing {
        cycle: 7,
        runs: 1,
        spent: 1,
        has_ended: true,
        is_closed,
        is_whole: true,
        left: 0,
    }
}

#[test]
fn nights_wait_for_the_next_cycle(rt: HostRuntime) -> Result<(), Fail> {
    let alloc = rt.alloc();
    fs::create_dir(&rt, "state")?;
    fs::create_dir(&rt, "state/reports")?;
    fs::write(&rt, "state/reports/checkpoint-000007", "")?;
    let written = fs::symlink_metadata(&rt, "state/reports/checkpoint-000007")?.modified()?;
    let since = written.duration_since(SystemTime::UNIX_EPOCH);
    let ended = since.ok().ok_or("before the epoch")?.as_secs();
    for (every, is_closed, since, waits) in [
        (Some(1), true, 60, true),
        (Some(1), true, 86_400, false),
        (Some(1), false, 60, false),
        (None, true, 60, false),
    ] {
        let asked = asked(alloc, every)?;
        let given = given_by(alloc, &asked, ended + since)?;
        assert_eq!(rt; given.names().root, "/root");
        assert!(rt; text_of(&asked.known).is_none());
        let began = after_seven(is_closed);
        assert_eq!(rt; find_wait(&rt, &given, began).is_some(), waits, "{since}");
        let plan = find_plan(&rt, &given, began)?;
        assert_eq!(rt; plan.end == Some(0), waits, "{since}");
        assert_eq!(rt; given.about().began, ended + since);
        assert_eq!(rt; last_cost(began), Some(1));
    }
    Ok(())
}
