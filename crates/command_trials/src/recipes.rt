// Words of `make` and `survey`: their forms, their ranges and what is dropped.
use commands::{Asked, WordFault, words_of};
use std::alloc::{AllocError, Global};
use std::test::Fail;
use tile_coords::Scheme;
use tileset_make::Recipe;

// A command's name and the words behind it, which `/` divides.
fn words_in(alloc: Global, name: &str, rest: &str) -> Result<Vec<String>, AllocError> {
    let mut words = Vec::new(alloc);
    words.push(String::from_str(alloc, name)?)?;
    for word in rest.split('/') {
        words.push(String::from_str(alloc, word)?)?;
    }
    Ok(words)
}

fn numbers(recipe: &Recipe) -> [u32; 5] {
    [
        recipe.levels,
        recipe.subtree_levels,
        recipe.contents,
        recipe.points,
        recipe.number,
    ]
}

#[test]
fn recipes_are_read_or_refused(rt: HostRuntime) -> Result<(), Fail> {
    let alloc = rt.alloc();
    // the words behind the name, the recipe that `make` reads, and whether `survey` reads it too
    let rows: [(&str, Option<(Scheme, [u32; 5])>, bool); 34] = [
        (
            "quadtree/3/2/1/2/1",
            Some((Scheme::Quad, [3, 2, 1, 2, 1])),
            true,
        ),
        (
            "octree/3/2/1/2/1",
            Some((Scheme::Oct, [3, 2, 1, 2, 1])),
            true,
        ),
        (
            "quadtree/1/1/0/1/0",
            Some((Scheme::Quad, [1, 1, 0, 1, 0])),
            true,
        ),
        (
            "quadtree/32/4/16/10000/9",
            Some((Scheme::Quad, [32, 4, 16, 10_000, 9])),
            true,
        ),
        (
            "quadtree/32/5/16/10000/9",
            Some((Scheme::Quad, [32, 5, 16, 10_000, 9])),
            false,
        ),
        (
            "quadtree/1/10/0/1/4294967295",
            Some((Scheme::Quad, [1, 10, 0, 1, u32::MAX])),
            false,
        ),
        (
            "octree/21/7/16/9/10",
            Some((Scheme::Oct, [21, 7, 16, 9, 10])),
            false,
        ),
        (
            "--/quadtree/3/2/1/2/1",
            Some((Scheme::Quad, [3, 2, 1, 2, 1])),
            true,
        ),
        (
            "quadtree/3/2/1/2/1/--",
            Some((Scheme::Quad, [3, 2, 1, 2, 1])),
            true,
        ),
        ("--/quadtree/3/2/--/1/2/1", None, false),
        ("--", None, false),
        ("quadtree/3/2/1/2", None, false),
        ("quadtree/3/2/1/2/1/1", None, false),
        ("Quadtree/3/2/1/2/1", None, false),
        ("-quadtree/3/2/1/2/1", None, false),
        ("3/quadtree/2/1/2/1", None, false),
        ("quadtree/03/2/1/2/1", None, false),
        ("quadtree/+3/2/1/2/1", None, false),
        ("quadtree/3/-2/1/2/1", None, false),
        ("quadtree/ 3/2/1/2/1", None, false),
        ("quadtree/3/2/1/2/1 ", None, false),
        ("quadtree/3/2//2/1", None, false),
        ("quadtree/0/2/1/2/1", None, false),
        ("quadtree/33/2/1/2/1", None, false),
        ("octree/22/2/1/2/1", None, false),
        ("quadtree/3/0/1/2/1", None, false),
        ("quadtree/3/11/1/2/1", None, false),
        ("octree/3/8/1/2/1", None, false),
        ("quadtree/3/2/17/2/1", None, false),
        ("quadtree/3/2/1/0/1", None, false),
        ("quadtree/3/2/1/10001/1", None, false),
        ("quadtree/3/2/1/2/4294967296", None, false),
        ("quadtree/3/2/1/2/00", None, false),
        ("quadtree/3/2/1/4294967297/1", None, false),
    ];
    for (rest, wanted, surveyed) in rows {
        let read = match words_of(alloc, &words_in(alloc, "make", rest)?) {
            Ok(Asked::Make { recipe }) => Some((recipe.scheme, numbers(&recipe))),
            Err(WordFault::Usage) => None,
            _ => return Err(Fail::new(rest)),
        };
        assert!(rt; read == wanted, "make of {rest}");
        let read = match words_of(alloc, &words_in(alloc, "survey", rest)?) {
            Ok(Asked::Survey { recipe }) => Some((recipe.scheme, numbers(&recipe))),
            Err(WordFault::Usage) => None,
            _ => return Err(Fail::new(rest)),
        };
        assert!(rt;
            read == if surveyed { wanted } else { None },
            "survey of {rest}"
        );
    }
    Ok(())
}
