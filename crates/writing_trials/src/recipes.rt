// What no clause says: with ample memory the files are made, under names of the standard's form, and surveyed.
use scene_ports::MemoryKeeper;
use std::test::Fail;
use tile_builder::{BuildStop, Built};
use tile_coords::Scheme;
use tileset_make::{Recipe, Survey, make, survey};

const WORKED: Recipe = Recipe {
    scheme: Scheme::Quad,
    levels: 3,
    subtree_levels: 2,
    contents: 1,
    points: 2,
    number: 1,
};

#[test]
fn files_of_a_worked_recipe(rt: HostRuntime) -> Result<(), Fail> {
    let alloc = rt.alloc();
    let mut keeper = MemoryKeeper::new(alloc, Vec::new(alloc));
    assert!(rt; make(alloc, &WORKED, &mut keeper) == Ok(Built { files: 4, tiles: 4 }));
    let names = [
        "s.0.0.0.subtree",
        "s.2.0.2.subtree",
        "s.2.1.3.subtree",
        "tileset.json",
    ];
    assert!(rt; keeper.files().len() == names.len());
    for (file, name) in keeper.files().iter().zip(names) {
        assert!(rt; file.0.as_str() == name);
    }
    Ok(())
}

#[test]
fn a_keeper_that_fails_at_the_last_file(rt: HostRuntime) -> Result<(), Fail> {
    let alloc = rt.alloc();
    let mut keeper = MemoryKeeper::new(alloc, vec![in alloc; 4]?);
    assert!(rt; make(alloc, &WORKED, &mut keeper) == Err(BuildStop::Failed));
    assert!(rt; keeper.files().len() == 3);
    Ok(())
}

// The numbers were counted by a few lines of Python, from the points and the sets of their ancestors.
#[test]
fn surveys(rt: HostRuntime) -> Result<(), Fail> {
    let alloc = rt.alloc();
    let rows: [(Recipe, Survey); 4] = [
        (WORKED, counted(4, 4, 4, 4, false)),
        (
            Recipe {
                scheme: Scheme::Quad,
                levels: 3,
                subtree_levels: 2,
                contents: 2,
                points: 2,
                number: 1,
            },
            counted(4, 4, 4, 7, false),
        ),
        (
            Recipe {
                scheme: Scheme::Oct,
                levels: 4,
                subtree_levels: 2,
                contents: 3,
                points: 5,
                number: 9,
            },
            counted(7, 15, 15, 27, false),
        ),
        (
            Recipe {
                scheme: Scheme::Oct,
                levels: 18,
                subtree_levels: 4,
                contents: 8,
                points: 20,
                number: 4294967295,
            },
            counted(81, 321, 321, 839, false),
        ),
    ];
    for (recipe, wanted) in rows {
        assert!(rt; survey(alloc, &recipe)? == wanted);
    }
    Ok(())
}

fn counted(files: u64, tiles: u64, listed: u64, contents: u64, more: bool) -> Survey {
    Survey {
        files,
        tiles,
        listed,
        contents,
        more,
    }
}
